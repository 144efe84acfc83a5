//! Laws of journals, each with an empty body.

ghost use Rattle.std.specs.Prelude.{◌≡◌, ◌≤◌, ◌++◌, true, ℕ, Some, None, List, [], ◌∷◌, length, slice_get, slice_index, take};
ghost use Rattle.fam_base.specs.declared.entry.Entry.{Entry};
ghost use Rattle.fam_base.specs.Image.{Image};
ghost use Rattle.fam_journal.specs.Calls.{busy_at, refusal_of, CutCall, Call, Completes, Does, Steps};
ghost use Rattle.fam_journal.specs.CallRecords.{IsStepped, DoesPart, HasShape, IsSoundCall};
ghost use Rattle.fam_commands.specs.Keeping.{kept_after};
ghost use Rattle.fam_commands.specs.Task.{Task};
ghost use Rattle.fam_journal.specs.Complete.{AreRuled, CanEnd, EndsInAnswer};
ghost use Rattle.fam_journal.specs.Ends.{CutCallReads, Ending, EventsDone, IsFaultless, ReadsAs};
ghost use Rattle.fam_journal.specs.Events.{Continues, Session, first_session};
ghost use Rattle.fam_journal.specs.EventShapes.{EndsShape, FollowsShape};
ghost use Rattle.fam_journal.specs.Follows.{Follows};
ghost use Rattle.fam_journal.specs.Shapes.{AreShaped, BreaksShape, DoesShape, HostShape, IsShaped, PartShape, shapes_behind, shapes_of};
ghost use Rattle.fam_journal.specs.View.{HostView, WorldStands, WorldView, empty_world};
ghost use Rattle.fam_journal.specs.Kept.{Held, Reached, settled_of};
ghost use Rattle.fam_journal.specs.ByWorld.{number_in, refusal_in, IsCallRow, TakesNoMedia, world_after};
ghost use Rattle.fam_journal.specs.Laws.{AreSame, AreSound, NonePending, IsPrefix, IsUncut, NoneEnds, MaySayNext, IsImage, IsSettled, TaskAt, TwoAnswers, first_entries, history_at, second_entries, task_turn};
ghost use Rattle.fam_journal.specs.Legal.{Legal, LegalBehind, cleared_report};
ghost use Rattle.fam_rules.specs.Reports.{report_of};
ghost use Rattle.fam_format.specs.Reading.{Lines};
ghost use Rattle.fam_journal.specs.Machines.{Machines, notes_of, unused};
ghost use Rattle.fam_journal.specs.Notes.{Note, Writes};
ghost use Rattle.fam_journal.specs.Past.{Bad, Damage, Given, Origin, first_past, past_behind, past_of};
ghost use Rattle.fam_journal.specs.declared.event.Ask.{Ask};
ghost use Rattle.fam_journal.specs.declared.event.Event.{Event};
ghost use Rattle.fam_journal.specs.Members.{changed_at};
ghost use Rattle.fam_machine.specs.Caches.{Cache};
ghost use Rattle.fam_commands.specs.Stands.{note_of, task_after, turn_given};
ghost use Rattle.fam_media.specs.Files.{Files};
ghost use Rattle.fam_protocol.specs.Steps.{turn_settles};

/// A new world is held, from every image of at most 1 TiB, whatever the image holds.
pub fn a_new_world_is_held()
    ensures { (image : Image) → IsImage image → Held image (unused image) empty_world image }
{}

/// What the protocol lets a task say is what the journal allows next (`legal`), and what the protocol settles by it is
/// what the journal settles (`settles`): for every turn, on sound and on damaged images.
pub fn what_a_task_says_is_legal()
    ensures legal { (at : TaskAt) → MaySayNext at → LegalBehind at.past (notes_of at.host (note_of (task_turn at))) }
    ensures settles { (at : TaskAt) → (says : MaySayNext at)
        → settled_of (past_behind at.past (notes_of at.host (note_of (task_turn at)))).state says.now
        ≡ turn_settles (task_turn at) (settled_of at.past.state says.now) }
{}

/// Whatever a call of the world does, as its row has it, a world that was held is held again once it stands for the
/// state behind the row and has the row's notes: with stops, halts, umounts, media faults and steps of other hosts at any
/// moment. Every call is one of these: a host is declared; a file system is made, or its maker halts, or a superblock
/// stands there; a command begins, does an operation, or runs to its answer; it is stopped or halted; what a host keeps
/// is forgotten; a cache moves, or the media fails in it; something is refused.
pub fn a_row_keeps_what_is_held()
    ensures held { (start : Image) (state left : Machines) (old new : WorldView) (call : Call) (notes : List Note)
        → Held start state old state.memory → IsSoundCall call → Does call state notes left
        → WorldStands (length start) left new → new.journal ≡ old.journal ++ notes
        → Held start left new left.memory }

    // So it is where no memory was found for an operation.
    ensures part { (start : Image) (state left : Machines) (old new : WorldView) (call : Call) (notes : List Note)
        → Held start state old state.memory → DoesPart call state notes left
        → WorldStands (length start) left new → new.journal ≡ old.journal ++ notes
        → Held start left new left.memory }

    // Where the media fails in a mkfs the journal is legal, and that the world is held is no longer said. The image reads
    // as before, as no superblock, or as the new file system with the parameters that this mkfs asks for.
    ensures cut { (start : Image) (state left : Machines) (old : WorldView) (call : Call) (notes : List Note)
        → Held start state old state.memory → CutCall call state notes left
        → Legal start (old.journal ++ notes) }
    ensures cut_reads { (start : Image) (state left : Machines) (old : WorldView) (call : Call) (notes : List Note)
        → Held start state old state.memory → IsSoundCall call → CutCall call state notes left
        → CutCallReads call state (past_of start old.journal).state left.memory }
{}

/// While a world is held, the image reads as what its journal settles (`reads`). The image of a journal's damaged state
/// is the one that was handed in, so a damaged image is left as it was (`bad`), until a mkfs's maker halts behind its
/// first send. Behind that too memory stays, whatever a call does, until the next note that ends the history (`stays`);
/// and the report of such an image is `cleared_report` (`reported`).
pub fn a_held_image_reads_as_its_journal()
    ensures reads { (start : Image) (state : Machines) (world : WorldView) (image : Image)
        → Held start state world image → ReadsAs (past_of start world.journal).state image }
    ensures bad { (start image : Image) (damage : Damage) (gate : ℕ) (journal : List Note)
        → (past_of start journal).state ≡ Bad (Given image) damage gate → image ≡ start }
    ensures stays { (start : Image) (state left : Machines) (world : WorldView) (call : Call) (notes : List Note)
        (origin : Origin) (damage : Damage) (gate : ℕ) → Held start state world state.memory
        → (past_of start world.journal).state ≡ Bad origin damage gate → Does call state notes left → NoneEnds notes
        → left.memory ≡ state.memory }
    ensures reported { (now : Lines) (have : ℕ) → slice_index (now 0) 0 ≡ 0 → report_of now have ≡ cleared_report }
{}

/// However the run of a script's events ends, its journal is legal. The image that is left reads as what the journal
/// settles; but behind a mkfs that a media fault cut it may have no superblock, or read as that mkfs's new file system.
pub fn a_run_is_settled()
    ensures { (start : Image) (files : Files) (events : List Event) (ending : Ending) (journal : List Note) (last : Session)
        → IsImage start → AreSound events
        → (done : EventsDone ending files events (first_session start) journal last)
        → IsSettled ending start files events journal last done }
{}

/// While a journal's state is bad, memory stays over every run of events whose notes end no history, but one that ends
/// behind a mkfs that a media fault cut. The run begins in a session that a run has come to; its events are interleaved in
/// any way, and it ends behind any of them, or within one for want of memory (`stays`). A session to which events lead from
/// the start is one that a run has come to (`reached`).
pub fn a_damaged_image_stays()
    ensures stays { (start : Image) (files : Files) (events : List Event) (ending : Ending) (old new : Session)
        (before notes : List Note) (origin : Origin) (damage : Damage) (gate : ℕ) → Reached start old.machines before
        → (past_of start before).state ≡ Bad origin damage gate → AreSound events → IsUncut ending
        → EventsDone ending files events old notes new → NoneEnds notes → new.machines.memory ≡ old.machines.memory }
    ensures reached { (start : Image) (files : Files) (events : List Event) (journal : List Note) (last : Session)
        → IsImage start → AreSound events → Follows files events (first_session start) journal last
        → Reached start last.machines journal }
{}

/// Of two answers with no file system made between them, and no maker halted behind its first send, the one of fewer
/// entries has those that stand first in the other one's, whichever came first.
pub fn the_history_only_grows()
    ensures more { (start : Image) (two : TwoAnswers start) → two.m ≤ two.n
        → first_entries two ≡ take two.m (second_entries two) }
    ensures fewer { (start : Image) (two : TwoAnswers start) → two.n ≤ two.m
        → second_entries two ≡ take two.n (first_entries two) }
{}

/// At most one entry is pending: one is written only where nothing is, and it is numbered by what is settled
/// (`writes`). What a journal settles only grows until the next file system is made, or its maker halts behind its first
/// send (`grows`).
pub fn at_most_one_entry_is_pending()
    ensures writes { (start : Image) (before rest : List Note) (host seq : ℕ) (entry : Entry)
        → Legal start (before ++ Writes host seq entry ∷ rest) → NonePending seq (past_of start before).state }
    ensures grows { (start : Image) (before behind : List Note) → NoneEnds behind
        → IsPrefix (history_at (past_of start before).state) (history_at (past_of start (before ++ behind)).state) }
{}

/// Every answer in a run's journal, but that the media failed, is one of the rules: of its host's last command, in the
/// state before it (`ruled`). So a master's append that the decision doesn't refuse answers that it is done. Where
/// memory doesn't fail, a command that begins and is run through ends in such an answer (`ends`). From wherever a
/// host's task has come to there is a run to its answer, which the media serves (`can`).
pub fn every_answer_is_of_the_rules()
    ensures ruled { (start : Image) (files : Files) (events : List Event) (journal : List Note) (last : Session)
        → IsImage start → AreSound events → Follows files events (first_session start) journal last
        → AreRuled (first_past start) journal }
    ensures ends { (files : Files) (name : List ℕ) (what : Ask) (old new : Session) (notes : List Note)
        → Continues Completes files name what old notes new → IsFaultless notes → EndsInAnswer notes }
    ensures can { (start : Image) (state : Machines) (journal : List Note) (host : ℕ) → Reached start state journal
        → busy_at host state ≡ true → CanEnd host state }
{}

/// Where the media never fails, events have one journal and one last state.
pub fn a_clean_run_is_the_only_one()
    ensures { (files : Files) (events : List Event) (old first second : Session) (a b : List Note)
        → IsFaultless a → IsFaultless b → Follows files events old a first → Follows files events old b second
        → AreSame a b first second }
{}

/// The first refusal of a call is the one that a world which stands for the state has by itself.
pub fn a_refusal_is_told_by_the_world()
    ensures { (lines : ℕ) (state : Machines) (world : WorldView) (call : Call) → WorldStands lines state world
        → refusal_of call state ≡ refusal_in call world (length state.memory) }
{}

/// What a call that takes no media makes of a world, as the world alone tells it, is the call's row: on the state that
/// the world stands for there are notes and a next state of the row, and the new world stands for that.
pub fn a_call_without_media_does_its_row()
    ensures { (state : Machines) (world : WorldView) (call : Call) → WorldStands (length state.memory) state world
        → TakesNoMedia call (length state.memory) world
        → IsCallRow call (length state.memory) state world (world_after call (length state.memory) world) }
{}

/// An operation that the media serves is the row of a step, where the world makes of its own host what its own task
/// says: on the state that the world stands for, with the notes of the task's turn, and the new world stands for the
/// state behind it.
pub fn an_operation_does_its_row()
    ensures { (state : Machines) (world : WorldView) (name : List ℕ) (h : ℕ) (view : HostView) (t : Task)
        → WorldStands (length state.memory) state world → number_in name world ≡ Some h
        → slice_get world.hosts h ≡ Some view → view.task ≡ Some t → IsStepped name h view t state world }
{}

/// Whatever a call of the world does on a state whose hosts are what notes tell, its notes have the shape that those
/// notes allow, whatever memory holds; and the hosts behind it are what the notes tell then (`does`). So have those of
/// a mkfs that a media fault cuts (`cut`), and of a call for which no memory was found (`part`). A state's hosts are
/// what a journal tells where a world of such hosts stands for it (`world`).
pub fn a_row_has_its_shape()
    ensures does { (lines : ℕ) (state left : Machines) (hosts : List HostShape) (notes : List Note) (call : Call)
        → AreShaped lines state hosts → Does call state notes left
        → DoesShape call lines hosts notes × AreShaped lines left (shapes_behind hosts notes) }
    ensures cut { (lines : ℕ) (state left : Machines) (hosts : List HostShape) (notes : List Note) (call : Call)
        → AreShaped lines state hosts → CutCall call state notes left → BreaksShape call lines hosts notes }
    ensures part { (lines : ℕ) (state left : Machines) (hosts : List HostShape) (notes : List Note) (call : Call)
        → AreShaped lines state hosts → DoesPart call state notes left → PartShape call lines hosts notes }
    ensures world { (state : Machines) (world : WorldView) → WorldStands (length state.memory) state world → IsShaped world
        → AreShaped (length state.memory) state (shapes_of world.journal) }
{}

/// The journal of events that follow from an image has their shape, on a media of as many lines (`follows`); and so has
/// the journal of a run, however it ends (`ends`).
pub fn a_run_has_its_shape()
    ensures follows { (files : Files) (events : List Event) (image : Image) (journal : List Note) (last : Session)
        → Follows files events (first_session image) journal last → FollowsShape (length image) events [] journal }
    ensures ends { (files : Files) (events : List Event) (image : Image) (journal : List Note) (last : Session) (ending : Ending)
        → EventsDone ending files events (first_session image) journal last → EndsShape ending (length image) events [] journal }
{}

/// Whatever word an operation of a world's own task gives, what its turn notes has the shape of a step (`shape`), and the
/// world's hosts are what its journal tells again, whatever cache the host has then (`world`). So a world keeps it on a
/// media whose content isn't modelled.
pub fn an_operation_has_its_shape()
    ensures shape { (lines : ℕ) (world : WorldView) (name : List ℕ) (h : ℕ) (view : HostView) (t : Task) (word : ℕ)
        → IsShaped world → number_in name world ≡ Some h → slice_get world.hosts h ≡ Some view → view.task ≡ Some t
        → refusal_in (Steps name) world lines ≡ None
        → DoesShape (Steps name) lines (shapes_of world.journal) (notes_of h (note_of (turn_given t word))) }
    ensures world { (world : WorldView) (h : ℕ) (view : HostView) (t : Task) (word : ℕ) (cache : Cache)
        → IsShaped world → slice_get world.hosts h ≡ Some view → view.task ≡ Some t
        → IsShaped (record {
          hosts = changed_at h (λ (v : HostView). record v { cache = cache; task = task_after (turn_given t word); kept = kept_after (turn_given t word) t v.kept }) world.hosts;
          journal = world.journal ++ notes_of h (note_of (turn_given t word));
        }) }
{}

/// What a call that takes no media makes of a world, as the world alone tells it, has its shape where the world's hosts
/// are what its journal tells; and they are so again.
pub fn a_call_without_media_has_its_shape()
    ensures { (lines : ℕ) (world : WorldView) (call : Call) → IsShaped world → TakesNoMedia call lines world
        → HasShape call lines world (world_after call lines world) }
{}
