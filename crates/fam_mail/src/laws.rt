//! Laws of a world with a mailbox, over what its calls promise. A law has an empty body.

ghost use Rattle.std.specs.Prelude.{◌≡◌, ◌⊎◌, ◌<◌, ◌≤◌, ℕ, Bool, List, None, Ok, Some, [], map as map_list};
ghost use Rattle.fam_base.specs.Image.{Image, eight, line_at};
ghost use Rattle.fam_base.specs.declared.entry.Entry.{Entry};
ghost use Rattle.fam_base.specs.declared.entry.Params.{Params};
ghost use Rattle.fam_format.specs.Params.{SoundParams};
ghost use Rattle.fam_format.specs.Slot.{Proper};
ghost use Rattle.fam_format.specs.Units.{units_in};
ghost use Rattle.fam_rules.specs.Place.{IsOnce};
ghost use Rattle.fam_machine.specs.HostMoves.{Move};
ghost use Rattle.fam_media.specs.States.{MediaChange};
ghost use Rattle.fam_rules.specs.Written.{file_line};
ghost use Rattle.fam_mail.specs.Boxes.{IsOneToOne, box_of, capacity_of};
ghost use Rattle.fam_mail.specs.Calls.{MailBegins, MailDeclares, MoveFailsAt, Finishes, MailHalts, IsTold, MoveDoneAt, MailOperates, Stays, MailStops, MailWorldFits, capacity_in};
ghost use Rattle.fam_mail.specs.Mail.{whole};
ghost use Rattle.fam_mail.specs.Protocol.{IsLineOfBox};
ghost use Rattle.fam_mail.specs.Records.{IsRecord};
ghost use Rattle.fam_mail.specs.Standing.{IsOneWriter, IsMailReady, MailPast, MailStands, StandsAfter, StandsFinished, StandsStill, StandsUnfinished};
ghost use Rattle.fam_mail.specs.World.{MailView, mail_noted};
ghost use Rattle.fam_mail.specs.declared.ask.Ask.{Ask};
ghost use Rattle.fam_mail.specs.declared.ask.Ask.TheVariants.{Post};
ghost use Rattle.fam_mail.specs.declared.note.MailNote.{MailNote};
ghost use Rattle.fam_mail.specs.declared.note.MailRefusal.{MailRefusal};

/// No two lines of a file of which no unit stands twice are one line of the image.
pub fn a_file_has_no_line_twice()
    ensures { (p : Params) (e : Entry) → SoundParams p → Proper p e → IsOnce (units_in p.unit e.extents)
        → 128 ≤ e.size → IsOneToOne (file_line e) (capacity_of e.size) }
{}

/// An image of which the box is read as a list is the beginning of a run: before any host is declared what the protocol
/// keeps holds, with that list settled and nothing pending.
pub fn a_box_begins_a_run()
    ensures { (entry : Entry) (image : Image) (records : List (List ℕ)) → IsOneToOne (file_line entry) (capacity_of entry.size)
        → map_list eight image ≡ image → box_of (file_line entry) (capacity_of entry.size) (line_at image) ≡ Ok records
        → MailStands (line_at image) (record { entry = entry; hosts = []; journal = [] })
        (record { mail = record { list = records; pending = None }; floors = λ h. None }) image }
{}

/// Whatever host does an operation of its task, and whatever its word is: the task says what it may (`TaskMaySay`), so a list
/// that is taken is a front of the settled records followed by the pending one, and holds all that was settled at the task's
/// mark; and the world stands again. Where the media fails in it the world stands as well.
pub fn every_operation_says_what_it_may()
    ensures { (rest : ℕ → List ℕ) (name : List ℕ) (told : MediaChange) (over : Bool) (old new : MailView) (past : MailPast) (image : Image)
        (lines : ℕ) (call : MailOperates name told over old new) → MailStands rest old past image → told.old.image ≡ Some image
        → IsTold lines told.old.image → MailWorldFits lines old → StandsAfter rest past name told over old new call }
{}

/// So it is with a task that is finished: each of its operations says what it may, and the world stands behind each. Where
/// memory ran out before the last one it stands too.
pub fn a_task_that_is_finished_says_what_it_may()
    ensures finished { (rest : ℕ → List ℕ) (name : List ℕ) (told : MediaChange) (old new : MailView) (past : MailPast) (image : Image)
        (lines : ℕ) (call : Finishes lines name told old new) → MailStands rest old past image → told.old.image ≡ Some image
        → MailWorldFits lines old → StandsFinished rest past lines name told old new call }
    ensures stays { (rest : ℕ → List ℕ) (name : List ℕ) (told : MediaChange) (old new : MailView) (past : MailPast) (image : Image)
        (lines : ℕ) (call : Stays lines name told old new) → MailStands rest old past image → told.old.image ≡ Some image
        → MailWorldFits lines old → StandsUnfinished rest past lines name told old new call }
{}

/// The world stands behind every other call too.
pub fn a_world_stands_behind_its_calls()
    // A call is refused, and the media is as it was.
    ensures refused { (rest : ℕ → List ℕ) (made : MailNote) (old : MailView) (past : MailPast) (image : Image) → MailStands rest old past image
        → MailStands rest (mail_noted made old) past image }

    // A host is declared.
    ensures host { (rest : ℕ → List ℕ) (name : List ℕ) (old new : MailView) (past : MailPast) (image : Image) → (writer : Bool)
        → MailDeclares name writer None old new → MailStands rest old past image → MailStands rest new past image }

    // A task begins, is dropped, or is lost with its host's cache.
    ensures begin { (rest : ℕ → List ℕ) (name : List ℕ) (old new : MailView) (past : MailPast) (image : Image) → MailStands rest old past image
        → IsOneWriter old.hosts → (ask : Ask) → ((numbers : List ℕ) → ask ≡ Post numbers → IsRecord numbers)
        → MailBegins name ask None old new → MailStands rest new past image }
    ensures stop { (rest : ℕ → List ℕ) (name : List ℕ) (old new : MailView) (past : MailPast) (image : Image) → MailStands rest old past image
        → MailStops name None old new → MailStands rest new past image }
    ensures halt { (rest : ℕ → List ℕ) (name : List ℕ) (old new : MailView) (past : MailPast) (image : Image) → MailStands rest old past image
        → MailHalts name None old new → MailStands rest new past image }

    // A cache moves by itself at a line of the file, or the media fails in it.
    ensures moved { (rest : ℕ → List ℕ) (name : List ℕ) (line : ℕ) (move : Move) (told : MediaChange) (old new : MailView) (past : MailPast)
        (image : Image) (lines : ℕ) → MailStands rest old past image → told.old.image ≡ Some image → IsTold lines told.old.image
        → MailWorldFits lines old → line ≤ capacity_in old → MoveDoneAt name line move told old new → StandsStill rest past told.new.image new }
    ensures failed { (rest : ℕ → List ℕ) (name : List ℕ) (line : ℕ) (move : Move) (told : MediaChange) (old new : MailView) (past : MailPast)
        (image : Image) (lines : ℕ) → MailStands rest old past image → told.old.image ≡ Some image → IsTold lines told.old.image
        → MailWorldFits lines old → line ≤ capacity_in old → (cause : MailRefusal) → MoveFailsAt name line move told cause old new
        → StandsStill rest past told.new.image new }
{}

/// What these laws ask of a world besides that it stands holds at first, and behind every call: at most one host may post, and
/// all fits the media. Of calls on a media the second is a clause of the call's own.
pub fn a_world_is_ready_behind_its_calls()
    // Before any host is declared, and where a call is refused.
    ensures first { (lines : ℕ) (entry : Entry) → ((j : ℕ) → j ≤ capacity_of entry.size → file_line entry j < lines)
        → IsMailReady lines (record { entry = entry; hosts = []; journal = [] }) }
    ensures refused { (lines : ℕ) (made : MailNote) (old : MailView) → IsMailReady lines old → IsMailReady lines (mail_noted made old) }

    // A host is declared, begins a task, drops it, or halts.
    ensures host { (lines : ℕ) (name : List ℕ) (old new : MailView) → IsMailReady lines old → (writer : Bool)
        → MailDeclares name writer None old new → IsMailReady lines new }
    ensures begin { (lines : ℕ) (name : List ℕ) (old new : MailView) → IsMailReady lines old → (ask : Ask) → MailBegins name ask None old new
        → IsMailReady lines new }
    ensures stop { (lines : ℕ) (name : List ℕ) (old new : MailView) → IsMailReady lines old → MailStops name None old new → IsMailReady lines new }
    ensures halt { (lines : ℕ) (name : List ℕ) (old new : MailView) → IsMailReady lines old → MailHalts name None old new → IsMailReady lines new }

    // A task does an operation, or more of them, or a cache moves by itself, or the media fails in that.
    ensures operated { (lines : ℕ) (name : List ℕ) (old new : MailView) → IsMailReady lines old → (told : MediaChange) (over : Bool)
        → MailOperates name told over old new → MailWorldFits lines new → IsMailReady lines new }
    ensures finished { (lines : ℕ) (name : List ℕ) (old new : MailView) → IsMailReady lines old → (told : MediaChange)
        → Finishes lines name told old new → MailWorldFits lines new → IsMailReady lines new }
    ensures stays { (lines : ℕ) (name : List ℕ) (old new : MailView) → IsMailReady lines old → (told : MediaChange)
        → Stays lines name told old new → MailWorldFits lines new → IsMailReady lines new }
    ensures moved { (lines : ℕ) (name : List ℕ) (old new : MailView) → IsMailReady lines old → (line : ℕ) (move : Move) (told : MediaChange)
        → MoveDoneAt name line move told old new → MailWorldFits lines new → IsMailReady lines new }
    ensures failed { (lines : ℕ) (name : List ℕ) (old new : MailView) → IsMailReady lines old → (line : ℕ) (move : Move)
        (told : MediaChange) (cause : MailRefusal) → MoveFailsAt name line move told cause old new → IsMailReady lines new }
{}

/// While a world stands its box reads as what is settled, or as that followed by the pending record (`read`), and each line of
/// the image that isn't one of the box's is as at first (`others`).
pub fn a_box_reads_as_what_is_settled()
    ensures read { (rest : ℕ → List ℕ) (v : MailView) (past : MailPast) (image : Image) → MailStands rest v past image
        → (box_of (file_line v.entry) (capacity_in v) (line_at image) ≡ Ok past.mail.list)
        ⊎ (box_of (file_line v.entry) (capacity_in v) (line_at image) ≡ Ok (whole past.mail)) }
    ensures others { (rest : ℕ → List ℕ) (v : MailView) (past : MailPast) (image : Image) → MailStands rest v past image
        → (l : ℕ) → (IsLineOfBox (file_line v.entry) (capacity_in v) l → ⊥) → line_at image l ≡ rest l }
{}
