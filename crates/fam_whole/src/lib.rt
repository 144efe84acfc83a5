//! Scripts of whole commands: hosts that run one tool at a time. Laws with empty bodies.
#![tactic(auto)]

ghost use Rattle.std.specs.FinMap as finmap;
ghost use Rattle.std.specs.Prelude.{◌≡◌, ◌⊎◌, ◌≤◌, ℕ, Bool, true, List, Ok, Option, None, Some, length, slice_get, option_map};
ghost use Rattle.fam_base.specs.declared.cmd.Attr.{Attr};
ghost use Rattle.fam_base.specs.declared.cmd.Cmd.{Cmd};
ghost use Rattle.fam_base.specs.declared.cmd.Cmd.TheVariants as cmd;
ghost use Rattle.fam_base.specs.declared.entry.Params.{Params};
ghost use Rattle.fam_base.specs.Image.{Image, line_at};
ghost use Rattle.fam_format.specs.Params.{IsUuid};
ghost use Rattle.fam_machine.specs.MkfsRequest.{mkfs_request};
ghost use Rattle.fam_rules.specs.Asks.{File, entries_of};
ghost use Rattle.fam_rules.specs.Place.{StandsAt};
ghost use Rattle.fam_rules.specs.Solo.{held_file};
ghost use Rattle.fam_journal.specs.Events.{DoesEvent, Session, first_session};
ghost use Rattle.fam_journal.specs.Follows.{Follows};
ghost use Rattle.fam_journal.specs.Laws.{AreSound, IsImage};
ghost use Rattle.fam_journal.specs.Notes.{Note};
ghost use Rattle.fam_journal.specs.Past.{Sound, past_of, with_pending};
ghost use Rattle.fam_journal.specs.declared.event.Ask.{Ask};
ghost use Rattle.fam_journal.specs.declared.event.Ask.TheVariants as ask;
ghost use Rattle.fam_journal.specs.declared.event.Event.{Event};
ghost use Rattle.fam_outcomes.specs.declared.status.Status.{Status};
ghost use Rattle.fam_outcomes.specs.declared.status.Status.TheVariants.{OutOfMemory};
ghost use Rattle.fam_outcomes.specs.Programs.{Script, Single, script_limit};
ghost use Rattle.fam_outcomes.specs.Runs.{HasRisen, NoneRose, Outside};
ghost use Rattle.fam_media.specs.Files.{Files};
ghost use Rattle.fam_grammar.specs.Scripts.{script_events};
ghost use Rattle.fam_program.specs.Shadows.{IsShadeUntouched, ShadowTop, ShowsTree};
ghost use Rattle.fam_shadow.specs.Nodes.{ShadeChange};
ghost use Rattle.fam_storm.specs.Storm.{storm};
ghost use Rattle.fam_words.specs.declared.wanted.Invocation.{Invocation};
ghost use Rattle.fam_words.specs.declared.wanted.Invocation.TheVariants as invocation;
ghost use Rattle.fam_words.specs.declared.wanted.Shot.{Shot};
ghost use Rattle.fam_words.specs.declared.wanted.Shot.TheVariants as shot;
ghost use Rattle.fam_top.specs.Calls.{CallEnds, invoked_command, fs_or, host_or, shot_of};
ghost use Rattle.fam_whole.specs.Called.{IsLawful};
ghost use Rattle.fam_whole.specs.Alone.{AskEnds, CommandEnds, FormatsImage, ParentsEnd, ShotFront};
ghost use Rattle.fam_whole.specs.Whole.{RunsAgree, AreRefusals, AreWhole, EndsExact, EndsFront, EndsNone, IsExact, UpToFault, WholeRun, commands_in, is_move};

/// Where each command ends before the next one begins, and the media doesn't fail, the image after the events is the
/// fold of new file systems, of the lines that makers put before they halted, and of acknowledged entries. Nothing is
/// pending, and what the notes settle is what the image reads as; behind a maker that halted after its first send both
/// say that there is no superblock. Each answer is the rules' answer on the image that its command began with, so it is
/// of the whole history, and a report is that image's own. What the caches hold, and how stale it is, is of no account.
pub fn a_script_of_whole_commands_is_exact()
    ensures { (files : Files) (events : List Event) (start : Image) → IsImage start → AreSound events
        → (run : WholeRun files events start) → IsExact run }
{}

/// What caches do by themselves between commands is of no account. Two scripts with the same commands, from one image
/// and with one shelf, have the same notes but for the refusals of these moves, and leave the same image (`alike`). So
/// it is where one of the two has no such moves. A move notes nothing but that it was refused (`moves`).
pub fn moves_between_commands_change_nothing()
    ensures alike { (files : Files) (one other : List Event) (start : Image) → IsImage start → AreSound one
        → AreSound other → commands_in one ≡ commands_in other
        → (a : WholeRun files one start) (b : WholeRun files other start) → RunsAgree a b }
    ensures moves { (files : Files) (event : Event) (old new : Session) (notes : List Note) → is_move event ≡ true
        → DoesEvent files event old notes new → AreRefusals notes }
{}

/// Whatever the run, also where hosts' steps interleave: at its end no byte of the device is a byte of two files, nor
/// twice one of one, of the files that are settled and the one that is pending (`apart`). Where each command ends before
/// the next one begins, and the media doesn't fail, the image has at their places the bytes that the journal tells of each
/// file: those that its command put there, or that the first image had (`held`).
pub fn no_byte_is_in_two_files()
    ensures apart { (files : Files) (events : List Event) (start : Image) (journal : List Note) (last : Session)
        (p : Params) (history : List File) (pending : Option File) → IsImage start → AreSound events
        → Follows files events (first_session start) journal last
        → (past_of start journal).state ≡ Sound p history pending
        → (i j a b byte : ℕ) → StandsAt (entries_of (with_pending history pending)) i a byte
        → StandsAt (entries_of (with_pending history pending)) j b byte → (i ≡ j) × (a ≡ b) }
    ensures held { (files : Files) (events : List Event) (start : Image) (p : Params) (history : List File)
        → IsImage start → AreSound events → (run : WholeRun files events start)
        → (past_of start run.journal).state ≡ Sound p history None
        → (i : ℕ) (f : File) → slice_get history i ≡ Some f → f ≡ held_file (line_at run.last.machines.memory) f.entry }
{}

/// Whatever the media does, the first events of a run of whole commands, all of them or up to the first one that tells a fault
/// of the media, are run exactly.
pub fn a_run_is_exact_up_to_a_fault()
    ensures { (files : Files) (events : List Event) (start : Image) → IsImage start → AreSound events → AreWhole events
        → (journal : List Note) (last : Session) → Follows files events (first_session start) journal last
        → UpToFault files events start journal }
{}

/// The run that the clause of the top call tells, of a script, a storm or a command of its own, keeps the laws of runs, where
/// image and files are modelled. Its journal is legal, and the image that is left reads as what that settles, or behind a
/// mkfs that a media fault cut as before it, as no superblock, or as the new file system; where all events are done each
/// answer is of the rules; and where no count rose they are done, or memory ran out.
pub fn what_a_call_runs_keeps_the_laws()
    ensures { (asked : Option Invocation) (me random : List ℕ) (out : Outside) (given : Status) (files : Files) (start : Image)
        → (call : CallEnds asked me random out given) → out.media.old.image ≡ Some start → out.shelf.old.files ≡ Some files
        → IsLawful out files start (option_map (invoked_command me random) asked) given call.ends.own call.ends.text
        call.ends.shows }
{}

/// What the program's top call leaves of a script of whole commands, where no count rose, of media, shelf and sink, and
/// the shelf holds the script. Each event was run; the notes of the run were put, and it is exact: the image that is left
/// is the fold of the events and their notes, and each answer is the rules' answer on the image that its command began
/// with. Or there was no memory (`whole`). Where the media didn't fail, whatever shelf and sink did, so it is of some
/// first events, and no others were run (`front`); but that memory may have run out in one more command.
pub fn a_program_of_whole_commands_is_exact()
    ensures whole { (me random : List ℕ) (out : Outside) (given : Status) (name : List ℕ) (files : Files)
        (bytes : List ℕ) (events : List Event) (start : Image) → NoneRose out
        → CallEnds (Some (invocation.Script name)) me random out given → out.media.old.image ≡ Some start
        → out.shelf.old.files ≡ Some files → finmap.get files name ≡ Some bytes → length bytes ≤ script_limit
        → script_events bytes ≡ Ok events → AreWhole events
        → (given ≡ OutOfMemory) ⊎ EndsExact files events start out given }
    ensures front { (me random : List ℕ) (out : Outside) (given : Status) (name : List ℕ) (files : Files)
        (bytes : List ℕ) (events : List Event) (start : Image) → (HasRisen out.media.old.faults out.media.new.faults → ⊥)
        → CallEnds (Some (invocation.Script name)) me random out given → out.media.old.image ≡ Some start
        → out.shelf.old.files ≡ Some files → finmap.get files name ≡ Some bytes → script_events bytes ≡ Ok events
        → AreWhole events → EndsNone script_events storm (Some (Script name)) out given
        ⊎ EndsFront files events start out given }
{}

/// What the program's top call leaves of a command of its own, where no count rose: or there was no memory. The rules'
/// answer on the image is put, and the image that they leave is left (`command`); so all that the protocol and the caches
/// do comes to the rules alone. So it is with a source, once the shelf says what it comes to (`asks`). A new file system
/// is made as it was asked for, or refused by its numbers or by the superblock that stands there (`mkfs`). Directories
/// along a path are made one after another, each exactly (`parents`). Where the media didn't fail, whatever shelf and sink
/// did, some first events of the command were run, exactly; and the text of what came of them, or the line that ends them
/// early, was put, or a front of it (`front`).
pub fn a_command_of_its_own_is_exact()
    ensures command { (me random : List ℕ) (out : Outside) (given : Status) (system : Option (List ℕ)) (cmd : Cmd)
        (files : Files) (start : Image) → NoneRose out
        → CallEnds (Some (invocation.Single system (shot.Run (ask.Plain cmd)))) me random out given
        → out.media.old.image ≡ Some start → out.shelf.old.files ≡ Some files
        → (given ≡ OutOfMemory) ⊎ CommandEnds start (host_or me system) cmd out given }
    ensures asks { (me random : List ℕ) (out : Outside) (given : Status) (system : Option (List ℕ)) (what : Ask)
        (files : Files) (start : Image) → NoneRose out
        → CallEnds (Some (invocation.Single system (shot.Run what))) me random out given
        → out.media.old.image ≡ Some start → out.shelf.old.files ≡ Some files
        → (given ≡ OutOfMemory) ⊎ AskEnds files start (host_or me system) what out given }
    ensures mkfs { (me random : List ℕ) (out : Outside) (given : Status) (system fs : Option (List ℕ)) (unit log format : ℕ)
        (force : Bool) (files : Files) (start : Image) → NoneRose out
        → CallEnds (Some (invocation.Single system (shot.Mkfs fs unit log format force))) me random out given
        → out.media.old.image ≡ Some start → out.shelf.old.files ≡ Some files
        → (given ≡ OutOfMemory)
        ⊎ FormatsImage start (host_or me system) (mkfs_request (fs_or random fs) unit log format force None) out given }
    ensures parents { (me random : List ℕ) (out : Outside) (given : Status) (system : Option (List ℕ)) (path : List ℕ)
        (attr : Attr) (files : Files) (start : Image) → NoneRose out
        → CallEnds (Some (invocation.Single system (shot.Parents path attr))) me random out given
        → out.media.old.image ≡ Some start → out.shelf.old.files ≡ Some files
        → (given ≡ OutOfMemory) ⊎ ParentsEnd files start (host_or me system) path attr out given }
    ensures front { (me random : List ℕ) (out : Outside) (given : Status) (system : Option (List ℕ)) (what : Shot)
        (files : Files) (start : Image) → (HasRisen out.media.old.faults out.media.new.faults → ⊥)
        → CallEnds (Some (invocation.Single system what)) me random out given
        → out.media.old.image ≡ Some start → out.shelf.old.files ≡ Some files
        → EndsNone script_events storm (Some (Single (host_or me system) (shot_of random what))) out given
        ⊎ ShotFront files start (host_or me system) (shot_of random what) out given }
{}

/// logplay with a folder, where no count rose of media, shelf and sink, by the clause of its call alone: the image is as it
/// was (`image`). Where it shows no tree the rules' answer to logplay is put, and the folder is as it was; or there was no
/// memory. Else the tree that is written is the one that logplay by itself would show (`text`).
pub fn a_shadow_leaves_the_image()
    ensures image { (me : List ℕ) (out : Outside) (shade : ShadeChange) (given : Status) (files : Files) (start : Image)
        → NoneRose out → IsImage start → IsUuid me → ShadowTop (Some me) out shade given
        → out.media.old.image ≡ Some start → out.shelf.old.files ≡ Some files → out.media.new.image ≡ Some start }
    ensures text { (me : List ℕ) (out : Outside) (shade : ShadeChange) (given : Status) (files : Files) (start : Image)
        → NoneRose out → IsImage start → IsUuid me → ShadowTop (Some me) out shade given
        → out.media.old.image ≡ Some start → out.shelf.old.files ≡ Some files
        → (given ≡ OutOfMemory) ⊎ ShowsTree me out shade given
        ⊎ (CommandEnds start me cmd.Logplay out given × IsShadeUntouched shade) }
{}
