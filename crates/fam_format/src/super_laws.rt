//! What ties the definitions of superblock and header together. A law has an empty body: its clause is a fact
//! about the definitions of `specs/`, at all values.

ghost use Rattle.std.specs.Prelude.{◌≡◌, ◌≤◌, ◌↔◌, ℕ, IsTrue, List, length, None, Ok};
ghost use Rattle.fam_base.specs.declared.entry.Params.{Params};
ghost use Rattle.fam_format.specs.Layout.{device_limit};
ghost use Rattle.fam_format.specs.Params.{IsUuid, SoundParams, is_unit};
ghost use Rattle.fam_format.specs.Super.{magic, super_of, super_words};
ghost use Rattle.fam_format.specs.Log.{gate_fault, log_fault, log_words};
ghost use Rattle.fam_format.specs.SuperLaws.{IsSuper, IsUnit, IsWords};

/// The units are the powers of two from 4 KiB to 2 MiB.
pub fn unit_is_power_of_two()
    ensures { (u : ℕ) → IsTrue (is_unit u) ↔ IsUnit u }
{}

/// The spelling of sound parameters is read as them, on each image that has the device.
pub fn superblock_is_read()
    ensures { (p : Params) (have : ℕ) → SoundParams p → p.device ≤ have → super_of magic (super_words p) have ≡ Ok p }
{}

/// What is read is the spelling of sound parameters, with a device that the image has.
pub fn superblock_is_spelled()
    ensures { (word : ℕ) (w : List ℕ) (have : ℕ) (p : Params) → IsWords 16 w → have ≤ device_limit
        → super_of word w have ≡ Ok p → IsSuper word w have p }
{}

/// No two sound parameters have one spelling.
pub fn superblock_is_unique()
    ensures { (p q : Params) → SoundParams p → SoundParams q → super_words p ≡ super_words q → p ≡ q }
{}

/// The header of a log has no fault, and nothing else has none.
pub fn header_is_read()
    ensures { (p : Params) (w : List ℕ) → length w ≡ 8 → (log_fault w p ≡ None) ↔ (w ≡ log_words p) }
{}

/// Logs with one header have one length, one count of slots and one file system.
pub fn header_is_unique()
    ensures { (p q : Params) → IsUuid p.fs → IsUuid q.fs → log_words p ≡ log_words q
        → (p.log_length ≡ q.log_length) × (p.slots ≡ q.slots) × (p.fs ≡ q.fs) }
{}

/// The gate has no fault exactly where it counts no more entries than there are slots.
pub fn gate_is_within()
    ensures { (p : Params) (gate : ℕ) → (gate_fault gate p ≡ None) ↔ (gate ≤ p.slots) }
{}
