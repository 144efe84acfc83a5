//! Paths. `specs/Paths.antt` has the rule.
//!
//! A contract sees a `Path` as its list of bytes, which is known to be a path once `bytes` was called.

ghost use Rattle.std.specs.Prelude.{◌≡◌, ◌≢◌, ◌↔◌, ℕ, ◌<◌, ◌≤◌, ◌&&◌, List, ◌∷◌, ◌++◌, true, false, Some, None, IsTrue, IsOk, IfOk, length, slice_index, take};
ghost use Rattle.std.specs.Bool.{OnTrue};
ghost use Rattle.std.specs.List.{list_all, list_any};
ghost use Rattle.fam_base.specs.Paths.{slash, is_name, is_slash, names, has_no_nul, is_path, padded, parent_of, IsPathField};

use std::marker::Model;

/// The most bytes of a path, `path_limit` in contracts.
pub const PATH_LIMIT: usize = 512;

/// The bytes are no path.
#[derive(Clone, Copy, Debug, PartialEq, Eq)]
pub struct BadPath;

/// A path of 1 to 512 bytes, none of them 0, cut at slashes into names. No name is empty, `.` or `..`, so
/// there is no slash in front or behind. `Copy`, with zeros behind. Paths are ordered by their bytes.
#[derive(Clone, Copy)]
pub struct Path {
    bytes: [u8; PATH_LIMIT],
    len: usize,
}

impl Model for Path {
    ghost use Rattle.std.specs.Prelude.{ℕ, List, length, take};
    ghost use Rattle.fam_base.specs.Paths.{padded, IsPathField};

    ghost Value = { List ℕ };

    ghost view = { λ a. take a.len a.bytes };

    ghost invariant = { λ a. IsPathField a.bytes a.len };

    ghost inverse = { λ xs. record { bytes = padded xs; len = length xs } };

    ghost inverse_ok = { λ a h. Prim.rw (← h.zeros, h.count) };
}

fn has_name(name: &[u8]) -> bool
    ensures { result ≡ is_name name.now }
{
    match name {
        [] | [b'.'] | [b'.', b'.'] => false,
        _ => true,
    }
}

/// Whether bytes begin with eight that are no slash. No test waits for the one before it, so that they are made together.
#[inline(always)]
fn begin_in_name(bytes: &[u8]) -> bool
    ensures long { OnTrue result (8 ≤ length bytes.now) }
    ensures none { OnTrue result ((k : ℕ) → k < 8 → slice_index bytes.now k ≢ slash) }
{
    match bytes {
        [a, b, c, d, e, f, g, h, ..] => {
            (*a != b'/')
                & (*b != b'/')
                & (*c != b'/')
                & (*d != b'/')
                & (*e != b'/')
                & (*f != b'/')
                & (*g != b'/')
                & (*h != b'/')
        }
        _ => false,
    }
}

/// A place behind which no slash stands, found by eight bytes at a time.
#[inline(always)]
fn place_in_name(bytes: &[u8]) -> usize
    ensures within { result ≤ length bytes.now }
    ensures none { (k : ℕ) → result ≤ k → k < length bytes.now → slice_index bytes.now k ≢ slash }
{
    let mut end = bytes.len();
    while end >= 8 && begin_in_name(&bytes[end - 8..]) {
        end -= 8;
    }
    end
}

/// Whether bytes have no 0, and are proper names between slashes: one pass.
fn are_names(bytes: &[u8]) -> bool
    ensures { result ≡ (has_no_nul bytes.now && list_all is_name (names bytes.now)) }
{
    let mut start = 0;
    for i in 0..bytes.len() {
        match bytes[i] {
            0 => return false,
            b'/' => {
                if !has_name(&bytes[start..i]) {
                    return false;
                }
                start = i + 1;
            }
            _ => {}
        }
    }
    has_name(&bytes[start..])
}

#[tactic(auto, unfolding(crate::specs::Paths::is_path))]
fn stored(bytes: &[u8]) -> Path
    requires { IsTrue (is_path bytes.now) }
    ensures { result ≡ bytes.now }
{
    let len = bytes.len();
    let mut field = [0; PATH_LIMIT];
    field[..len].copy_from_slice(bytes);
    Path { bytes: field, len }
}

impl Path {
    /// Whether bytes are a path.
    #[tactic(auto, unfolding(crate::specs::Paths::is_path))]
    pub fn is_path(bytes: &[u8]) -> bool
        ensures { result ≡ is_path bytes.now }
    {
        if bytes.is_empty() {
            return false;
        }
        if bytes.len() > PATH_LIMIT {
            return false;
        }
        are_names(bytes)
    }

    /// The path that lies in a field in front of zeros.
    pub fn in_field(field: &[u8; PATH_LIMIT], len: usize) -> Path
        requires { IsPathField field.now len }
        ensures { result ≡ take len field.now }
    {
        Path { bytes: *field, len }
    }

    /// The path of these bytes. `BadPath` comes exactly where they are none.
    pub fn read(bytes: &[u8]) -> Result<Path, BadPath>
        ensures ok { IsOk result ↔ IsTrue (is_path bytes.now) }
        ensures same { IfOk result (λ p. p ≡ bytes.now) }
    {
        if Path::is_path(bytes) {
            Ok(stored(bytes))
        } else {
            Err(BadPath)
        }
    }

    /// The bytes of the path.
    pub fn bytes(&self) -> &[u8]
        ensures same { result.now ≡ self.now }
        ensures path { IsTrue (is_path self.now) }
    {
        &self.bytes[..self.len]
    }

    /// The bytes of the path in a field, with zeros behind.
    #[inline(always)]
    pub(crate) fn field(&self) -> &[u8; PATH_LIMIT]
        ensures same { result.now ≡ padded self.now }
        ensures path { IsTrue (is_path self.now) }
    {
        &self.bytes
    }

    /// The path without its last name. A path of one name has none: its parent is the root, which is no
    /// path.
    pub fn parent(&self) -> Option<Path>
        ensures { result ≡ parent_of self.now }
    {
        let bytes = self.bytes();
        for i in (0..place_in_name(bytes)).rev() {
            if bytes[i] == b'/' {
                return Some(stored(&bytes[..i]));
            }
        }
        None
    }
}

/// The parent of `prefix/name` is `prefix`, a name alone has none, and a path's parent is a path.
pub fn parent_is_the_prefix()
    ensures prefix { (prefix name : List ℕ) → list_any is_slash name ≡ false
        → parent_of (prefix ++ slash ∷ name) ≡ Some prefix }
    ensures root { (name : List ℕ) → list_any is_slash name ≡ false → parent_of name ≡ None }
    ensures path { (bytes parent : List ℕ) → is_path bytes ≡ true → parent_of bytes ≡ Some parent
        → is_path parent ≡ true }
{}
