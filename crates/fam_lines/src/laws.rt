//! The law of lines, with an empty body.

ghost use Rattle.std.specs.Prelude.{◌≡◌, ℕ, List};
ghost use Rattle.fam_journal.specs.Notes.{Note};
ghost use Rattle.fam_journal.specs.Past.{Past};
ghost use Rattle.fam_journal.specs.Shapes.{HostShape};
ghost use Rattle.fam_judge.specs.Fitting.{FitsNext};
ghost use Rattle.fam_judge.specs.Standing.{MayStand, faces};
ghost use Rattle.fam_lines.specs.Behind.{IsEntireNote};
ghost use Rattle.fam_lines.specs.Hosts.{faces_of};
ghost use Rattle.fam_lines.specs.declared.host.SeenHost.{SeenHost};

/// A note that stands and fits is whole: what its text doesn't tell is what it is of each such note. So where no line is resolved
/// (`only` of `resolve`), no note of this text stands and fits, and else each one tells the same as the line's.
pub fn what_stands_and_fits_is_whole()
    ensures { (lines : ℕ) (hosts : List SeenHost) (shapes : List HostShape) (past : Past) (note : Note)
        → faces shapes ≡ faces_of hosts → MayStand lines shapes note → FitsNext past note → IsEntireNote hosts note }
{}
