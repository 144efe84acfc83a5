//! Laws of copies.

ghost use Rattle.std.specs.Prelude.{◌≡◌, ◌≤◌, ◌*◌, ◌⊎◌, ℕ, List, Some, length};
ghost use Rattle.fam_base.specs.declared.entry.Params.{Params};
ghost use Rattle.fam_base.specs.declared.entry.Entry.{Entry};
ghost use Rattle.fam_base.specs.Image.{Image, line_at};
ghost use Rattle.fam_format.specs.Params.{SoundParams};
ghost use Rattle.fam_format.specs.Reading.{reading};
ghost use Rattle.fam_rules.specs.declared.answers.Refused.{Refused};
ghost use Rattle.fam_rules.specs.Place.{line_bytes};
ghost use Rattle.fam_rules.specs.Written.{put_lines};
ghost use Rattle.fam_plan.specs.State.{IsHistory};
ghost use Rattle.fam_dup.specs.Copies.{Copied, IsWantOfRoom, StoppedAt, copying};
ghost use Rattle.fam_dup.specs.Ends.{IsCopied, IsOldOrNone};
ghost use Rattle.fam_dup.specs.Lines.{LinesPartlyPut, copy_puts};

/// Only want of slots or of room stops the copying of a log's entries: no other refusal comes.
pub fn only_room_stops_a_copy()
    ensures { (p q : Params) (entries : List Entry) (seq : ℕ) (refused : Refused) → SoundParams q
        → IsHistory (record { params = p; entries = entries }) → copying q entries ≡ StoppedAt seq refused
        → IsWantOfRoom refused }
{}

/// A copy that was written whole reads as the copies, with the bytes of their entries, and leaves other lines.
pub fn a_whole_copy_is_read()
    ensures { (p q : Params) (from to : Image) (entries copies : List Entry) → SoundParams q
        → q.device ≤ line_bytes * length to → IsHistory (record { params = p; entries = entries })
        → copying q entries ≡ Copied copies
        → IsCopied from to (put_lines (copy_puts (line_at from) q entries copies) to) q entries copies }
{}

/// A copy that was cut at any of its writes reads as what stood there, as no superblock, or as the whole copy.
pub fn a_cut_copy_is_old_none_or_whole()
    ensures { (p q : Params) (from to new : Image) (entries copies : List Entry) → SoundParams q
        → q.device ≤ line_bytes * length to → IsHistory (record { params = p; entries = entries })
        → copying q entries ≡ Copied copies
        → LinesPartlyPut (copy_puts (line_at from) q entries copies) (Some to) (Some new)
        → IsOldOrNone (reading to) (reading new) ⊎ IsCopied from to new q entries copies }
{}
