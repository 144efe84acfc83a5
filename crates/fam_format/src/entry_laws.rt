//! What ties the slot definitions together: an entry's spelling and the reader's answer say the same.
//!
//! A law has an empty body: its clauses are facts about the definitions of `specs/`, at all values.

ghost use Rattle.std.specs.Prelude.{◌≡◌, ◌+◌, ◌^◌, ◌<◌, ◌≤◌, ℕ, List, All, length, Ok, Err};
ghost use Rattle.fam_base.specs.declared.entry.Params.{Params};
ghost use Rattle.fam_base.specs.declared.entry.Entry.{Entry};
ghost use Rattle.fam_format.specs.declared.faults.Reason.{Reason};
ghost use Rattle.fam_format.specs.Layout.{geometry};
ghost use Rattle.fam_format.specs.Params.{SoundParams};
ghost use Rattle.fam_format.specs.Slot.{Proper, spelling, entry_of};
ghost use Rattle.fam_format.specs.SuperLaws.{IsWords};
ghost use Rattle.fam_format.specs.EntryLaws.{FitsWords, IsInDevice};

/// The words of a proper entry are read as that entry.
pub fn a_spelling_is_read()
    ensures { (p : Params) (e : Entry) (seq : ℕ) → Proper p e
        → entry_of p (spelling (geometry p) e seq) seq ≡ Ok e }
{}

/// What is read is a proper entry, and a slot's words from which it is read are its spelling.
pub fn what_is_read_is_spelled()
    ensures proper { (p : Params) (words : List ℕ) (seq : ℕ) (e : Entry)
        → entry_of p words seq ≡ Ok e → Proper p e }
    ensures spelled { (p : Params) (words : List ℕ) (seq : ℕ) (e : Entry)
        → IsWords (geometry p).words words → entry_of p words seq ≡ Ok e
        → words ≡ spelling (geometry p) e seq }
{}

/// No two proper entries have one spelling, nor two numbers, whatever the parameters are.
pub fn one_spelling_each()
    ensures entry { (p q : Params) (e f : Entry) (m n : ℕ) → Proper p e → Proper q f
        → spelling (geometry p) e m ≡ spelling (geometry q) f n → e ≡ f }
    ensures number { (p q : Params) (e f : Entry) (m n : ℕ) → Proper p e → Proper q f
        → spelling (geometry p) e m ≡ spelling (geometry q) f n → m ≡ n }
{}

/// Words that a reader refuses are no proper entry's spelling with that number.
pub fn a_refused_slot_is_no_spelling()
    ensures { (p : Params) (words : List ℕ) (seq : ℕ) (r : Reason) (e : Entry)
        → entry_of p words seq ≡ Err r → Proper p e → words ≡ spelling (geometry p) e seq → ⊥ }
{}

/// A proper entry's numbers fit words of 64 bits and its extents their sixteen places, since a device has at most
/// 1 TiB. Its spelling has a slot's words, of 64 bits each.
pub fn a_proper_entry_fits_its_words()
    ensures numbers { (p : Params) (e : Entry) → SoundParams p → Proper p e → FitsWords e }
    ensures count { (p : Params) (e : Entry) (seq : ℕ)
        → length (spelling (geometry p) e seq) ≡ (geometry p).words }
    ensures words { (p : Params) (e : Entry) (seq : ℕ) → SoundParams p → Proper p e → seq < 2 ^ 64
        → IsWords (geometry p).words (spelling (geometry p) e seq) }
{}

/// The extents of a proper entry are whole units, behind the log and within the device.
pub fn extents_lie_inside()
    ensures units { (p : Params) (e : Entry) → Proper p e → All (IsInDevice p) e.extents }
    ensures device { (p : Params) (e : Entry) → Proper p e
        → All (λ x. x.offset + x.length ≤ p.device) e.extents }
{}
