//! The laws of reports.

ghost use Rattle.std.specs.Prelude.{◌≡◌, ℕ, List};
ghost use Rattle.fam_base.specs.declared.entry.Params.{Params};
ghost use Rattle.fam_base.specs.declared.entry.Entry.{Entry};
ghost use Rattle.fam_format.specs.Reading.{Lines, Sound, reading_of};
ghost use Rattle.fam_format.specs.ReadingLaws.{HasWords};
ghost use Rattle.fam_rules.specs.Reports.{report_of};
ghost use Rattle.fam_rules.specs.ReportLaws.{IsSoundReport};

/// An image that reads as sound has a report that says so: superblock and log are sound, files, directories and
/// units are those of its entries, and there is neither a bad entry nor an overlap.
pub fn a_sound_image_is_reported_sound()
    ensures { (line : Lines) (have : ℕ) (p : Params) (list : List Entry) → HasWords line
        → reading_of line have ≡ Sound p list → IsSoundReport p list (report_of line have) }
{}
