//! Laws of runs of a mailbox's events, and of legal journals. A law has an empty body.

ghost use Rattle.std.specs.Prelude.{◌≡◌, ◌⊎◌, ◌-◌, ◌^◌, ◌<◌, ◌++◌, ◌∷◌, ℕ, List, Some, []};
ghost use Rattle.fam_base.specs.Image.{Image};
ghost use Rattle.fam_base.specs.declared.entry.Entry.{Entry};
ghost use Rattle.fam_mail.specs.Boxes.{capacity_of};
ghost use Rattle.fam_mail.specs.Calls.{capacity_in};
ghost use Rattle.fam_mail.specs.Follows.{AreSoundMailEvents, MailDoes, MailFollows, IsSoundMailAsk};
ghost use Rattle.fam_mail.specs.Happens.{HasMailCounted, HasRunMail, HasRunMailPart, IsMailHeld, mail_faults};
ghost use Rattle.fam_mail.specs.Legal.{LegalMail, MayCome, mail_state};
ghost use Rattle.fam_mail.specs.Machines.{MailMachines, unused_machines};
ghost use Rattle.fam_mail.specs.RunLaws.{TaskAnswers, IsBoxAtFirst, IsBoxLeft, IsMailRefused, IsTakenList};
ghost use Rattle.fam_mail.specs.World.{MailView};
ghost use Rattle.fam_mail.specs.declared.ask.Ask.{Ask};
ghost use Rattle.fam_mail.specs.declared.event.MailEvent.{MailEvent as Event};
ghost use Rattle.fam_mail.specs.declared.event.MailEvent.TheVariants.{Finish, Run};
ghost use Rattle.fam_mail.specs.declared.note.MailNote.{MailNote};
ghost use Rattle.fam_mail.specs.declared.note.MailNote.TheVariants.{BadBox, BadRecord, Taken};

/// A box that is read as a list begins a run: no event is done, and no host is declared.
pub fn a_box_begins_a_script()
    ensures { (entry : Entry) (image : Image) (records : List (List ℕ)) → IsBoxAtFirst entry image records
        → HasRunMail image records [] (record { entry = entry; hosts = []; journal = [] }) (Some image) }
{}

/// Whatever events follow, whichever of the machine's rows they take, the journal is legal, and the protocol's invariant holds of
/// the state that is left.
pub fn every_run_of_events_is_held()
    ensures { (entry : Entry) (image : Image) (records : List (List ℕ)) (events : List Event) (journal : List MailNote)
        (last : MailMachines) → IsBoxAtFirst entry image records → AreSoundMailEvents events
        → MailFollows entry events (unused_machines image) journal last → IsMailHeld entry image records last journal }
{}

/// While a state is held the box is read as what the journal has settled, or as that followed by the pending record, and all
/// other lines of the image are as at first.
pub fn a_held_box_reads_as_its_journal()
    ensures { (entry : Entry) (start : Image) (records : List (List ℕ)) (m : MailMachines) (journal : List MailNote)
        → IsMailHeld entry start records m journal
        → IsBoxLeft entry start m.memory (mail_state (capacity_of entry.size) records journal).mail }
{}

/// So it is of a world and of what its media shows behind the events of a run, also where no memory was left for the last one.
pub fn a_run_leaves_its_box()
    ensures legal { (start image : Image) (records : List (List ℕ)) (events : List Event) (v : MailView)
        → HasRunMail start records events v (Some image) → LegalMail (capacity_in v) records v.journal }
    ensures left { (start image : Image) (records : List (List ℕ)) (events : List Event) (v : MailView)
        → HasRunMail start records events v (Some image) → IsBoxLeft v.entry start image (mail_state (capacity_in v) records v.journal).mail }
    ensures part_legal { (start image : Image) (records : List (List ℕ)) (events : List Event) (e : Event) (v : MailView)
        → HasRunMailPart start records events e v (Some image) → LegalMail (capacity_in v) records v.journal }
    ensures part_left { (start image : Image) (records : List (List ℕ)) (events : List Event) (e : Event) (v : MailView)
        → HasRunMailPart start records events e v (Some image)
        → IsBoxLeft v.entry start image (mail_state (capacity_in v) records v.journal).mail }
{}

/// In a legal journal each note may come behind those before it.
pub fn a_legal_journal_allows_each_note()
    ensures { (capacity : ℕ) (records : List (List ℕ)) (before : List MailNote) (note : MailNote) (behind : List MailNote)
        → LegalMail capacity records (before ++ note ∷ behind) → MayCome capacity (mail_state capacity records before) note }
{}

/// In a legal journal each list that is taken is a front of the settled records followed by the pending one, and holds all that
/// was settled when its take dropped the gate's line.
pub fn a_taken_list_holds_what_was_settled()
    ensures { (capacity : ℕ) (records : List (List ℕ)) (before : List MailNote) (name : List ℕ) (count : ℕ)
        (taken : List (List ℕ)) (behind : List MailNote) → LegalMail capacity records (before ++ Taken name count taken ∷ behind)
        → IsTakenList capacity records before name count taken }
{}

/// No legal journal says that box or record is bad.
pub fn no_box_is_found_bad()
    ensures bad_box { (capacity : ℕ) (records : List (List ℕ)) (before : List MailNote) (name : List ℕ) (gate most : ℕ)
        (behind : List MailNote) → LegalMail capacity records (before ++ BadBox name gate most ∷ behind) → ⊥ }
    ensures bad_record { (capacity : ℕ) (records : List (List ℕ)) (before : List MailNote) (name : List ℕ) (i word : ℕ)
        (behind : List MailNote) → LegalMail capacity records (before ++ BadRecord name i word ∷ behind) → ⊥ }
{}

/// Where the media doesn't fail, a task that is run to its end answers: its record is posted, the box is full, or a list is taken.
pub fn a_task_that_is_run_answers()
    ensures finish { (entry : Entry) (start : Image) (records : List (List ℕ)) (m : MailMachines) (journal : List MailNote)
        (name : List ℕ) (notes : List MailNote) (left : MailMachines) → IsMailHeld entry start records m journal
        → MailDoes entry (Finish name) m notes left → mail_faults notes ≡ 0 → IsMailRefused name notes ⊎ TaskAnswers name notes }
    ensures run { (entry : Entry) (start : Image) (records : List (List ℕ)) (m : MailMachines) (journal : List MailNote)
        (name : List ℕ) (ask : Ask) (notes : List MailNote) (left : MailMachines) → IsMailHeld entry start records m journal
        → IsSoundMailAsk ask → MailDoes entry (Run name ask) m notes left → mail_faults notes ≡ 0
        → IsMailRefused name notes ⊎ TaskAnswers name notes }
{}

/// Where no count rose no fault is noted.
pub fn a_fault_that_is_noted_was_counted()
    ensures { (before now : ℕ) (notes : List MailNote) → HasMailCounted before now notes → now ≡ before → before < 2 ^ 64 - 1
        → mail_faults notes ≡ 0 }
{}
