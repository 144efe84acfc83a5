//! Names of hosts. `specs/HostNames.antt` has the rule.
//!
//! A contract sees a `HostName` as its list of bytes.

ghost use Rattle.std.specs.Prelude.{◌≡◌, ◌↔◌, IsTrue, IsOk, IfOk};
ghost use Rattle.std.specs.List.{list_all};
ghost use Rattle.std.specs.Cmp;
ghost use Rattle.std.specs.Cmp.Lexicographic.{nat_list_eq_equiv};
ghost use Rattle.fam_base.specs.HostNames.{is_name_byte, is_host_name};
ghost use Rattle.fam_base.specs.PathOrder.{path_eq};

use std::marker::Model;

/// The most bytes of a host's name, `name_limit` in contracts.
pub const NAME_LIMIT: usize = 16;

/// The bytes are no host's name.
#[derive(Clone, Copy, Debug, PartialEq, Eq)]
pub struct BadName;

/// The name of a host: 1 to 16 bytes, each of A to Z, a to z, 0 to 9 or `_`. `Copy`, with zeros behind.
#[derive(Clone, Copy)]
pub struct HostName {
    bytes: [u8; NAME_LIMIT],
    len: usize,
}

impl Model for HostName {
    ghost use Rattle.std.specs.Prelude.{ℕ, List, length, take};
    ghost use Rattle.fam_base.specs.HostNames.{name_field, IsNameField};

    ghost Value = { List ℕ };

    ghost view = { λ a. take a.len a.bytes };

    ghost invariant = { λ a. IsNameField a.bytes a.len };

    ghost inverse = { λ xs. record { bytes = name_field xs; len = length xs } };

    ghost inverse_ok = { λ a h. Prim.rw (← h.zeros, h.count) };
}

fn is_name_byte(byte: u8) -> bool
    ensures { result ≡ is_name_byte byte }
{
    byte.is_ascii_alphanumeric() || byte == b'_'
}

fn are_name_bytes(bytes: &[u8]) -> bool
    ensures { result ≡ list_all is_name_byte bytes.now }
{
    bytes.iter().all(|byte| is_name_byte(*byte))
}

#[tactic(auto, unfolding(crate::specs::HostNames::is_host_name))]
fn is_host_name(bytes: &[u8]) -> bool
    ensures { result ≡ is_host_name bytes.now }
{
    if bytes.is_empty() {
        return false;
    }
    if bytes.len() > NAME_LIMIT {
        return false;
    }
    are_name_bytes(bytes)
}

#[tactic(auto, unfolding(crate::specs::HostNames::is_host_name))]
fn stored(bytes: &[u8]) -> HostName
    requires { IsTrue (is_host_name bytes.now) }
    ensures { result ≡ bytes.now }
{
    let len = bytes.len();
    let mut field = [0; NAME_LIMIT];
    field[..len].copy_from_slice(bytes);
    HostName { bytes: field, len }
}

impl HostName {
    /// The name of these bytes. `BadName` comes exactly where they are none.
    pub fn read(bytes: &[u8]) -> Result<HostName, BadName>
        ensures ok { IsOk result ↔ IsTrue (is_host_name bytes.now) }
        ensures same { IfOk result (λ name. name ≡ bytes.now) }
    {
        if is_host_name(bytes) {
            Ok(stored(bytes))
        } else {
            Err(BadName)
        }
    }

    /// The bytes of the name.
    pub fn bytes(&self) -> &[u8]
        ensures same { result.now ≡ self.now }
        ensures name { IsTrue (is_host_name self.now) }
    {
        &self.bytes[..self.len]
    }
}

/// Names are equal where their bytes are.
impl PartialEq for HostName {
    ghost eq = { path_eq };

    ghost laws = { Cmp.partial_equiv_from_equiv nat_list_eq_equiv };

    fn eq(&self, other: &HostName) -> bool
        ensures value { result ≡ path_eq self.now other.now }
        ensures same { IsTrue result ↔ (self.now ≡ other.now) }
    {
        // Behind a name its field has zeros.
        self.len == other.len && self.bytes == other.bytes
    }
}

impl Eq for HostName {
    ghost laws = { nat_list_eq_equiv };
}
