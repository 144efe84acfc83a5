//! The laws of place.

ghost use Rattle.std.specs.Prelude.{◌≡◌, ◌+◌, ◌*◌, ◌/◌, ◌<◌, ◌≤◌, ℕ, List, slice_index};
ghost use Rattle.fam_base.specs.declared.entry.Params.{Params};
ghost use Rattle.fam_base.specs.declared.entry.Entry.{Entry};
ghost use Rattle.fam_base.specs.declared.extents.Extent.{Extent};
ghost use Rattle.fam_format.specs.Layout.{log_end, device_units};
ghost use Rattle.fam_format.specs.Params.{SoundParams};
ghost use Rattle.fam_format.specs.Slot.{Proper};
ghost use Rattle.fam_format.specs.Units.{units_in};
ghost use Rattle.fam_format.specs.Reading.{Lines, Sound, reading_of};
ghost use Rattle.fam_format.specs.ReadingLaws.{HasWords};
ghost use Rattle.fam_rules.specs.Place.{line_bytes, bytes_of_extents, total_length, simple_place, place, IsIn};
ghost use Rattle.fam_rules.specs.Place.{IsOnce, StandsAt, AreApart, IsLaidOut};

/// In a simple map the extents in their order, laid end to end, hold the file's bytes in order.
pub fn simple_bytes_lie_end_to_end()
    ensures { (extents : List Extent) (o : ℕ) → o < total_length extents
        → simple_place extents o ≡ slice_index (bytes_of_extents extents) o }
{}

/// Each byte of a proper file lies in one of its extents. So it is behind the log, and in the device's whole units.
pub fn bytes_lie_in_extents()
    ensures within { (p : Params) (e : Entry) (o : ℕ) → SoundParams p → Proper p e → o < e.size
        → IsIn e.extents (place e o) }
    ensures behind { (p : Params) (e : Entry) (o : ℕ) → SoundParams p → Proper p e → o < e.size
        → log_end p ≤ place e o }
    ensures before { (p : Params) (e : Entry) (o : ℕ) → SoundParams p → Proper p e → o < e.size
        → place e o < device_units p * p.unit }
{}

/// Where no unit stands twice in a proper file's extents, two of its bytes have two places.
pub fn bytes_of_a_file_are_apart()
    ensures { (p : Params) (e : Entry) (a b : ℕ) → SoundParams p → Proper p e
        → IsOnce (units_in p.unit e.extents) → a < e.size → b < e.size → place e a ≡ place e b → a ≡ b }
{}

/// Where no unit stands in two extents of a list of proper files, a byte of the device is at most one byte of one of
/// these files.
pub fn bytes_of_files_are_apart()
    ensures { (p : Params) (list : List Entry) (i j a b byte : ℕ) → SoundParams p → AreApart p list
        → StandsAt list i a byte → StandsAt list j b byte → (i ≡ j) × (a ≡ b) }
{}

/// No unit stands in two extents of a list in which the units of each entry are free behind the entries before it.
/// The entries of a sound image are such a list.
pub fn laid_out_files_are_apart()
    ensures list { (p : Params) (list : List Entry) → IsLaidOut p list → AreApart p list }
    ensures sound { (line : Lines) (have : ℕ) (p : Params) (entries : List Entry) → HasWords line
        → reading_of line have ≡ Sound p entries → AreApart p entries }
{}

/// The 64 bytes of a proper file's line lie in one line of the device, in their order.
pub fn a_line_of_a_file_is_a_line()
    ensures { (p : Params) (e : Entry) (j b : ℕ) → SoundParams p → Proper p e → line_bytes * j < e.size
        → b < line_bytes
        → place e (line_bytes * j + b) ≡ line_bytes * (place e (line_bytes * j) / line_bytes) + b }
{}
