//! The laws of making a file system and of appending an entry.

ghost use Rattle.std.specs.Prelude.{◌≡◌, ◌*◌, ◌≤◌, ◌<◌, ◌++◌, ◌∷◌, ℕ, List, [], None, length};
ghost use Rattle.fam_base.specs.declared.entry.Params.{Params};
ghost use Rattle.fam_base.specs.declared.entry.Entry.{Entry};
ghost use Rattle.fam_base.specs.Image.{Image, line_at};
ghost use Rattle.fam_format.specs.Layout.{least_lines};
ghost use Rattle.fam_format.specs.Params.{SoundParams};
ghost use Rattle.fam_format.specs.Reading.{Sound, reading};
ghost use Rattle.fam_format.specs.ReadingLaws.{HasWords};
ghost use Rattle.fam_format.specs.Slot.{Proper};
ghost use Rattle.fam_format.specs.Tree.{join_fault};
ghost use Rattle.fam_rules.specs.Place.{line_bytes};
ghost use Rattle.fam_rules.specs.Written.{formatted, written};
ghost use Rattle.fam_rules.specs.WrittenLaws.{IsFormatted, HasPhase, IsAppended};

/// Making a file system writes superblock, header and gate (`lines`). It then reads as sound, with no entries
/// (`empty`).
pub fn a_new_file_system_is_empty()
    ensures lines { (image : Image) (p : Params) → least_lines ≤ length image
        → IsFormatted p image (formatted image p) }
    ensures empty { (image : Image) (p : Params) → SoundParams p → least_lines ≤ length image
        → p.device ≤ line_bytes * length image → reading (formatted image p) ≡ Sound p [] }
{}

/// Appending an entry writes the lines of its file and its slot, and the gate (`lines`). A sound image to which an
/// entry is appended that is proper and joins reads as one entry more (`read`).
pub fn an_appended_entry_is_read()
    ensures lines { (p : Params) (seq : ℕ) (e : Entry) (bytes : List ℕ) (image : Image)
        → HasPhase p seq e (length image) → IsAppended p seq e bytes image (written image p seq e bytes) }
    ensures read { (image : Image) (p : Params) (list : List Entry) (e : Entry) (bytes : List ℕ)
        → HasWords (line_at image) → SoundParams p → p.device ≤ line_bytes * length image
        → reading image ≡ Sound p list → length list < p.slots → Proper p e → join_fault p list e ≡ None
        → reading (written image p (length list) e bytes) ≡ Sound p (list ++ e ∷ []) }
{}
