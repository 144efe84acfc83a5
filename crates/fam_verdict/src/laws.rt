//! Laws of verdicts, with empty bodies.

ghost use Rattle.std.specs.Prelude.{◌≡◌, [], List};
ghost use Rattle.fam_base.specs.Image.{Image};
ghost use Rattle.fam_journal.specs.Notes.{Note};
ghost use Rattle.fam_judge.specs.Explained.{IsExplained};
ghost use Rattle.fam_outcomes.specs.Texts.{render};
ghost use Rattle.fam_records.specs.ToldRecords.{AreTellingRecords};
ghost use Rattle.fam_verdict.specs.declared.verdict.Known.{Known as AnyKnown};
ghost use Rattle.fam_verdict.specs.declared.verdict.Verdict.{Verdict as AnyVerdict};
ghost use Rattle.fam_verdict.specs.declared.verdict.Verdict.TheVariants.{Legal};
ghost use Rattle.fam_verdict.specs.Verdicts.{Says};

/// The text of a journal that is explained from an image is legal on it, whatever verdict says so: no other one says what is so.
pub fn a_printed_history_is_judged()
    ensures { (start : Image) (journal : List Note) (verdict : AnyVerdict) → AreTellingRecords [] journal → IsExplained start journal
        → Says start (render journal) verdict → (known : AnyKnown) × (verdict ≡ Legal known) }
{}
