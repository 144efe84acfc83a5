//! Laws of runs over a mailbox. A law has an empty body.

ghost use Rattle.std.specs.Prelude.{◌≡◌, Bool, List, Some};
ghost use Rattle.fam_base.specs.Image.{Image};
ghost use Rattle.fam_base.specs.declared.entry.Entry.{Entry};
ghost use Rattle.fam_mail.specs.declared.event.MailEvent.{MailEvent};
ghost use Rattle.fam_media.specs.States.{MediaChange, SinkChange};
ghost use Rattle.fam_outcomes.specs.declared.status.Status.{Status};
ghost use Rattle.fam_mailbox.specs.Runs.{IsMailLeft, MailRan};

/// Where the media tells its image, the journal of a run is legal, however the run ends; and the image that it leaves reads as
/// the list that the journal settles, or as that followed by the pending record, with all lines that aren't the box's as before.
pub fn a_mail_run_leaves_its_box()
    ensures { (exact : Bool) (entry : Entry) (events : List MailEvent) (media : MediaChange) (s : SinkChange) (given : Status)
        (start image : Image) (ran : MailRan exact entry events media s given) → media.old.image ≡ Some start → media.new.image ≡ Some image
        → IsMailLeft entry start image ran.journal }
{}
