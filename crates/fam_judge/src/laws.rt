//! Laws of histories that are explained, with empty bodies.

ghost use Rattle.std.specs.Prelude.{◌≡◌, ◌<◌, ◌^◌, ◌++◌, ℕ, [], ◌∷◌, false, List, Ok, Some, length, map, slice_get};
ghost use Rattle.fam_base.specs.declared.cmd.Cmd.{Cmd};
ghost use Rattle.fam_base.specs.declared.cmd.Cmd.TheVariants.{Check};
ghost use Rattle.fam_base.specs.declared.entry.Entry.{Entry};
ghost use Rattle.fam_base.specs.Image.{Image};
ghost use Rattle.fam_format.specs.Tree.{replay};
ghost use Rattle.fam_grammar.specs.Scripts.{script_events};
ghost use Rattle.fam_media.specs.Files.{Files};
ghost use Rattle.fam_rules.specs.declared.answers.Checked.{Checked};
ghost use Rattle.fam_journal.specs.declared.event.Event.{Event};
ghost use Rattle.fam_journal.specs.Ends.{Ending, EventsDone};
ghost use Rattle.fam_journal.specs.Events.{Session, first_session};
ghost use Rattle.fam_journal.specs.EventShapes.{FollowsShape};
ghost use Rattle.fam_journal.specs.Follows.{Follows};
ghost use Rattle.fam_journal.specs.Laws.{AreSound, IsImage};
ghost use Rattle.fam_journal.specs.Legal.{Legal};
ghost use Rattle.fam_journal.specs.Calls.{number_of, Call, Does};
ghost use Rattle.fam_journal.specs.Machines.{Machines};
ghost use Rattle.fam_journal.specs.Notes.{Answer, Answered, Note, Start};
ghost use Rattle.fam_journal.specs.Past.{past_of};
ghost use Rattle.fam_journal.specs.Shapes.{AreShaped, HostShape, TaskNote, TaskShape, shapes_of, shown_shapes, shapes_behind};
ghost use Rattle.fam_judge.specs.Alike.{AreAlikeNotes, AreWhollyTold, told_note};
ghost use Rattle.fam_judge.specs.Asks.{AskSoundCommands};
ghost use Rattle.fam_judge.specs.Explained.{IsAllowedForSome, IsExplained, IsExplainedBy, AreAllowedForSome};
ghost use Rattle.fam_judge.specs.Fitting.{FitsNext, CheckFits};
ghost use Rattle.fam_judge.specs.Formed.{AreFormed, HavePlaces, AreSoundNotes, IsFormedNote, HasPlace, AreListedNotes};
ghost use Rattle.fam_judge.specs.GivesWay.{GiveWay};
ghost use Rattle.fam_judge.specs.Covering.{LeadsStates, IsOf, Judges};
ghost use Rattle.fam_judge.specs.Possible.{IsPossible, Possible, first_possible};
ghost use Rattle.fam_judge.specs.Untold.{untold_cmd, untold_note, untold_notes};
ghost use Rattle.fam_judge.specs.Shows.{ShowsJournal};
ghost use Rattle.fam_judge.specs.Standing.{AreDistinctHosts, AreStanding, IsFormedAs, MayList, MayStand, faces, is_own};
ghost use Rattle.fam_judge.specs.ToldHosts.{told_hosts_behind, told_hosts};
ghost use Rattle.fam_judge.specs.Counting.{CountsFit};

/// A legal journal whose notes have the form of the tables (`AreFormed`) is explained as it stands.
pub fn what_is_legal_is_explained()
    ensures { (start : Image) (journal : List Note) → Legal start journal → AreFormed (length start) [] journal
        → IsExplained start journal }
{}

/// The first lines of a history that is explained are explained. So a history that isn't has a first line up to which it
/// isn't.
pub fn first_lines_are_explained()
    ensures { (start : Image) (first rest : List Note) → IsExplained start (first ++ rest) → IsExplained start first }
{}

/// A history that is the same but for bytes as one that is explained is explained.
pub fn the_same_but_for_bytes()
    ensures { (start : Image) (a b : List Note) → AreAlikeNotes a b → IsExplained start a → IsExplained start b }
{}

/// A history that leaves no line out tells the same as the journal that explains it (`same`). So where it takes nothing from
/// sources it is legal, and its notes have the form of the tables (`legal`).
pub fn where_no_line_is_left_out()
    ensures same { (start : Image) (history journal : List Note) → IsExplainedBy start history journal
        → length history ≡ length journal → AreAlikeNotes history journal }
    ensures legal { (start : Image) (history journal : List Note) → IsExplainedBy start history journal
        → length history ≡ length journal → AreWhollyTold history
        → Legal start history × AreFormed (length start) [] history }
{}

/// The note that a host's running command may give next (`TaskNote` of fam_journal) has the form of the tables, where an answer
/// stands where these give it (`HasPlace`).
pub fn a_task_is_formed()
    ensures { (lines : ℕ) (hosts : List HostShape) (name : List ℕ) (h : ℕ) (host : HostShape) (task : TaskShape) (note : Note)
        → number_of name (shown_shapes lines hosts) ≡ Some h → slice_get hosts h ≡ Some host → host.task ≡ Some task
        → TaskNote h host.uuid task note → HasPlace hosts note → IsFormedNote lines hosts note }
{}

/// What events within their limits add one after another (`FollowsShape` of fam_journal) has the form of the tables, where its
/// commands are sound and its answers stand where the tables give them.
pub fn what_follows_is_formed()
    ensures { (lines : ℕ) (events : List Event) (hosts : List HostShape) (journal : List Note)
        → AreSound events → FollowsShape lines events hosts journal → AreSoundNotes journal → HavePlaces hosts journal
        → AreFormed lines hosts journal }
{}

/// Whatever the image holds and whatever the media does, each answer in the journal of a run stands where the tables of
/// operations give it: behind all events (`follows`), and however the run ends (`ends`). So it is of one call on a state whose
/// hosts are what notes tell (`row`).
pub fn answers_stand_at_their_places()
    ensures follows { (files : Files) (events : List Event) (image : Image) (journal : List Note) (last : Session)
        → Follows files events (first_session image) journal last → HavePlaces [] journal }
    ensures ends { (files : Files) (events : List Event) (image : Image) (journal : List Note) (last : Session) (ending : Ending)
        → EventsDone ending files events (first_session image) journal last → HavePlaces [] journal }
    ensures row { (lines : ℕ) (state left : Machines) (hosts : List HostShape) (notes : List Note) (call : Call)
        → AreShaped lines state hosts → Does call state notes left → HavePlaces hosts notes }
{}

/// Each command that begins in a run is sound (`sound`), and the entries of its listing are such as a source's lines have
/// (`listed`), where what stands in its events' asks is within the limits (`AskSoundCommands`): whatever bytes their sources hold.
pub fn commands_that_begin_are_sound()
    ensures sound { (files : Files) (events : List Event) (image : Image) (journal : List Note) (last : Session) (ending : Ending)
        → AskSoundCommands events → EventsDone ending files events (first_session image) journal last → AreSoundNotes journal }
    ensures listed { (files : Files) (events : List Event) (image : Image) (journal : List Note) (last : Session) (ending : Ending)
        → AskSoundCommands events → EventsDone ending files events (first_session image) journal last → AreListedNotes journal }
{}

/// From an image of at most 1 TiB the journal of a run is explained as it stands, where the events are within their limits
/// (`AreSound` of fam_journal), and so is what stands in their asks (`AskSoundCommands`): behind all events (`follows`), and
/// however the run ends (`ends`).
pub fn a_run_is_explained()
    ensures follows { (start : Image) (files : Files) (events : List Event) (journal : List Note) (last : Session)
        → IsImage start → AreSound events → AskSoundCommands events → Follows files events (first_session start) journal last
        → IsExplained start journal }
    ensures ends { (start : Image) (files : Files) (events : List Event) (journal : List Note) (last : Session) (ending : Ending)
        → IsImage start → AreSound events → AskSoundCommands events
        → EventsDone ending files events (first_session start) journal last → IsExplained start journal }
{}

/// What stands in the asks of a script that reads is within the limits (`asks`): no text has a listing in an ask. So its journal
/// is explained as it stands, from an image of at most 1 TiB, however the run ends (`explained`).
pub fn a_script_is_explained()
    ensures asks { (bytes : List ℕ) (events : List Event) → script_events bytes ≡ Ok events → AskSoundCommands events }
    ensures explained { (start : Image) (files : Files) (bytes : List ℕ) (events : List Event) (journal : List Note) (last : Session)
        (ending : Ending) → IsImage start → script_events bytes ≡ Ok events
        → EventsDone ending files events (first_session start) journal last → IsExplained start journal }
{}

/// What is explained stays so when a start is moved up, over lines that give way (`GiveWay`): they are of other hosts, make no
/// file system, and refuse none for what the command would change. So a recorder that notes starts early, over such lines,
/// makes more histories legal, never fewer.
pub fn a_start_moves_up()
    ensures { (start : Image) (a lines b : List Note) (h : ℕ) (cmd : Cmd) → GiveWay h (shapes_of a) lines
        → IsExplained start (a ++ (lines ++ Start h cmd ∷ b)) → IsExplained start (a ++ Start h cmd ∷ (lines ++ b)) }
{}

/// What is explained stays so when an answer is moved down, over lines that give way behind it (`GiveWay`): they are of other
/// hosts, make no file system, and refuse none for what the command would change. So a recorder that notes answers late, over
/// such lines, makes more histories legal, never fewer.
pub fn an_answer_moves_down()
    ensures { (start : Image) (a lines b : List Note) (h : ℕ) (answer : Answer) → GiveWay h (shapes_of (a ++ Answered h answer ∷ [])) lines
        → IsExplained start (a ++ Answered h answer ∷ (lines ++ b)) → IsExplained start (a ++ (lines ++ Answered h answer ∷ b)) }
{}

/// A note that is allowed behind some notes for some bytes of sources (`IsAllowedForSome`) fits what these notes tell (`FitsNext`),
/// which chooses no bytes.
pub fn what_is_allowed_fits()
    ensures { (start : Image) (before : List Note) (note : Note) → IsAllowedForSome start before note
        → FitsNext (past_of start (untold_notes before)) note }
{}

/// A note that fits what some notes tell (`FitsNext`) is allowed behind them for some bytes of sources (`IsAllowedForSome`), where
/// their commands are sound.
pub fn what_fits_is_allowed()
    ensures { (start : Image) (before : List Note) (note : Note) → AreSoundNotes before
        → FitsNext (past_of start (untold_notes before)) note → IsAllowedForSome start before note }
{}

/// A note that has the form of the tables stands in the table over the note alone (`MayStand`), which speaks of no event.
pub fn what_is_formed_stands()
    ensures { (lines : ℕ) (hosts : List HostShape) (note : Note) → IsFormedNote lines hosts note → MayStand lines hosts note }
{}

/// Where a note stands in that table, one that tells the same has the form of the tables (`stands`): of hosts that have UUIDs, of
/// which no two have the same name or UUID, and that are no more than may be declared (`AreDistinctHosts`). So are those of each
/// journal of this form (`hosts`).
pub fn what_stands_is_formed()
    ensures stands { (lines : ℕ) (hosts : List HostShape) (note : Note) → AreDistinctHosts (faces hosts) → MayStand lines hosts note
        → IsFormedAs lines hosts note }
    ensures hosts { (lines : ℕ) (journal : List Note) → AreFormed lines [] journal → AreDistinctHosts (faces (shapes_of journal)) }
{}

/// Whether a note stands in that table is settled by what is told of it (`told`). A note of no running command stands by what is
/// seen of the hosts (`seen`): their names and UUIDs, which ones run a command, and which ones keep something of the log. Any
/// note stands by what is told of the hosts and their commands (`alike`).
pub fn what_stands_is_told()
    ensures told { (lines : ℕ) (hosts : List HostShape) (a b : Note) → told_note a ≡ told_note b → MayStand lines hosts a
        → MayStand lines hosts b }
    ensures seen { (lines : ℕ) (a b : List HostShape) (note : Note) → faces a ≡ faces b → is_own note ≡ false → MayStand lines a note
        → MayStand lines b note }
    ensures alike { (lines : ℕ) (a b : List HostShape) (note : Note) → told_hosts a ≡ told_hosts b → MayStand lines a note
        → MayStand lines b note }
{}

/// What is told of the hosts behind some notes is settled by what is told of these.
pub fn hosts_are_told()
    ensures { (notes : List Note) (hosts : List HostShape)
        → told_hosts (shapes_behind hosts notes) ≡ told_hosts_behind (told_hosts hosts) (map told_note notes) }
{}

/// Which histories are explained, without a word of events: a journal whose notes stand (`AreStanding`), and are allowed,
/// explains each history that shows it (`explains`), and some such journal explains what is explained (`explained`).
pub fn what_stands_explains()
    ensures explains { (start : Image) (history journal : List Note) → ShowsJournal history journal
        → AreStanding (length start) [] journal → AreAllowedForSome start [] journal → IsExplained start history }
    ensures explained { (start : Image) (history : List Note) → IsExplained start history
        → (journal : List Note) × ShowsJournal history journal × AreStanding (length start) [] journal
        × AreAllowedForSome start [] journal }
{}

/// A listing may have any number of entries below 2 ^ 64. So what is told of a check is always told of a sound one.
pub fn a_listing_may_have_any_length()
    ensures { (count : ℕ) → count < 2 ^ 64 → MayList count }
{}

/// What a check may answer of a listing of which the number of its entries is told (`CheckFits`) is decided by numbers of the tree
/// (`CountsFit`): what it may answer fits these (`counted`), and for what fits there is such a listing, where the entries that are
/// counted aren't told (`listed`).
pub fn a_check_is_counted()
    ensures counted { (entries told : List Entry) (counts : Checked) → CheckFits (replay entries) (Check told) counts
        → CountsFit (replay entries) (length told) counts }
    ensures listed { (entries told : List Entry) (counts : Checked) → untold_cmd (Check told) ≡ Check told
        → CountsFit (replay entries) (length told) counts → CheckFits (replay entries) (Check told) counts }
{}

/// A history is explained exactly where some state of its hosts is possible behind its lines (`IsPossible`): where one is
/// explained some state is (`possible`), and where some state is the history is explained (`explained`). Of what a history
/// doesn't tell a state holds nothing.
pub fn some_state_is_possible()
    ensures possible { (start : Image) (history : List Note) → IsExplained start history
        → (x : Possible) × IsPossible start (untold_notes history) x }
    ensures explained { (start : Image) (history : List Note) (x : Possible) → IsPossible start (untold_notes history) x
        → IsExplained start history }
{}

/// A set of states that judges the lines of a history (`Judges`) begins with the one before them (`first`), and goes on by one
/// line that tells nothing of what isn't told (`line`): to states that allow no less than those to which it leads. It needn't
/// hold states that have named an entry before a line that tells nothing of it (`LeadsStates`). Where no state is left the history
/// isn't explained (`none`), and where one is left it is (`some`).
pub fn a_set_of_states_judges()
    ensures first { (start : Image) → Judges start [] (first_possible start ∷ []) }
    ensures line { (start : Image) (lines : List Note) (xs zs : List Possible) (line : Note) → untold_note line ≡ line
        → Judges start lines xs → LeadsStates start line xs zs → Judges start (lines ++ line ∷ []) zs }
    ensures none { (start : Image) (history : List Note) → Judges start (untold_notes history) [] → IsExplained start history → ⊥ }
    ensures some { (start : Image) (history : List Note) (xs : List Possible) (x : Possible) → Judges start (untold_notes history) xs
        → IsOf xs x → IsExplained start history }
{}
