//! Laws of what a run of the program comes to, each with an empty body.

ghost use Rattle.std.specs.Prelude.{◌≡◌, ◌⊎◌, ◌≤◌, ◌++◌, false, ℕ, Option, Some, Ok, List, [], length, map};
ghost use Rattle.std.specs.FinMap as finmap;
ghost use Rattle.fam_base.specs.Image.{Image};
ghost use Rattle.fam_journal.specs.Complete.{IsComplete};
ghost use Rattle.fam_journal.specs.Ends.{AllDone, Ending, HasCounted, EndsOutOfMemory};
ghost use Rattle.fam_journal.specs.Events.{Session, first_session};
ghost use Rattle.fam_journal.specs.Follows.{Follows};
ghost use Rattle.fam_journal.specs.Laws.{AreSound, IsImage};
ghost use Rattle.fam_journal.specs.Names.{AreNamed, NameDeclared};
ghost use Rattle.fam_journal.specs.Notes.{Note};
ghost use Rattle.fam_outcomes.specs.Programs.{Command, Grammar, Script, Storm, Storms, TopEnds, script_limit};
ghost use Rattle.fam_outcomes.specs.Runs.{HasRisen, IsCaused, NoneRose, Outside, RunsOn};
ghost use Rattle.fam_outcomes.specs.declared.status.Status.{Status};
ghost use Rattle.fam_outcomes.specs.declared.status.Status.TheVariants.{Done, MediaFault, OutOfMemory, Refused, SinkFault, SourceFault};
ghost use Rattle.fam_outcomes.specs.Texts.{names_behind, render, render_behind};
ghost use Rattle.fam_journal.specs.Past.{HostPast, past_of};
ghost use Rattle.fam_journal.specs.declared.event.Event.{Event};
ghost use Rattle.fam_media.specs.Files.{Files};

/// The text of a longer journal is the old text and what is put for the notes that were added (`more`). In a journal
/// that follows events from no hosts each note names a host that is declared before it (`named`), also with notes added
/// that name hosts of the journal (`adds`); and hosts' names are those of the journal's own notes (`names`).
pub fn a_text_only_grows()
    ensures more { (old added : List Note) → render (old ++ added) ≡ render old ++ render_behind (names_behind [] old) added }
    ensures named { (files : Files) (events : List Event) (image : Image) (journal : List Note) (last : Session)
        → Follows files events (first_session image) journal last
        → NameDeclared 0 journal }
    ensures adds { (old added : List Note) → NameDeclared 0 old → AreNamed (length (names_behind [] old)) added
        → NameDeclared 0 (old ++ added) }
    ensures names { (image : Image) (journal : List Note)
        → names_behind [] journal ≡ map (λ (host : HostPast). host.name) (past_of image journal).hosts }
{}

/// A status that names a fault has its cause: the media's count of faults rose; the shelf's count of faults, or that of
/// shorts; the sink's. So it is on every media, shelf and sink, whatever they tell.
pub fn a_status_has_its_cause()
    ensures media { (grammar : Grammar) (storms : Storms) (command : Option Command) (out : Outside) (given : Status)
        → TopEnds grammar storms command out given → given ≡ MediaFault → HasRisen out.media.old.faults out.media.new.faults }
    ensures source { (grammar : Grammar) (storms : Storms) (command : Option Command) (out : Outside) (given : Status)
        → TopEnds grammar storms command out given → given ≡ SourceFault
        → HasRisen out.shelf.old.faults out.shelf.new.faults ⊎ HasRisen out.shelf.old.shorts out.shelf.new.shorts }
    ensures sink { (grammar : Grammar) (storms : Storms) (command : Option Command) (out : Outside) (given : Status)
        → TopEnds grammar storms command out given → given ≡ SinkFault → HasRisen out.sink.old.faults out.sink.new.faults }
{}

/// Where no count rose, of media, shelf and sink, events are all done, each with its answer by the rules, or there was
/// no memory (`run`). So a script that the shelf holds, and that is no longer than a script may be and has no bad line,
/// is read and run to its end: its status is Done or Refused, or there was no memory (`script`); and a storm's is Done,
/// or that (`storm`).
pub fn a_run_without_faults_is_complete()
    ensures run { (out : Outside) (ending : Ending) (journal : List Note) (files : Files) (events : List Event) (start : Image)
        → NoneRose out → IsImage start → AreSound events → HasCounted out.media.old.faults out.media.new.faults journal
        → IsCaused ending events journal out → RunsOn ending files events start out.media.new.image journal
        → ((ending ≡ AllDone) × IsComplete files events start journal) ⊎ (ending ≡ EndsOutOfMemory) }
    ensures script { (grammar : Grammar) (storms : Storms) (out : Outside) (given : Status) (name : List ℕ) (files : Files)
        (bytes : List ℕ) (events : List Event) → NoneRose out → TopEnds grammar storms (Some (Script name)) out given
        → out.shelf.old.files ≡ Some files → finmap.get files name ≡ Some bytes → length bytes ≤ script_limit → grammar bytes ≡ Ok events
        → (given ≡ Done) ⊎ (given ≡ Refused) ⊎ (given ≡ OutOfMemory) }
    ensures storm { (grammar : Grammar) (storms : Storms) (out : Outside) (given : Status) (seed size : ℕ)
        → NoneRose out → TopEnds grammar storms (Some (Storm seed size false)) out given
        → (given ≡ Done) ⊎ (given ≡ OutOfMemory) }
{}
