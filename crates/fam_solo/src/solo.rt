//! A command that runs alone: one host, whose cache has nothing to send at first, on an image that nobody else touches
//! meanwhile. The copies that the cache holds may be stale, and the host may keep a front of the image's history. Laws
//! with empty bodies.

ghost use Rattle.std.specs.Prelude.{◌≡◌, ◌≤◌, ◌+◌, ◌*◌, ℕ, List, Option, length, map, Some, None};
ghost use Rattle.fam_base.specs.declared.cmd.Cmd.{Cmd};
ghost use Rattle.fam_base.specs.Image.{Image, eight};
ghost use Rattle.fam_format.specs.Layout.{device_limit, least_lines};
ghost use Rattle.fam_machine.specs.Caches.{Cache, IsClean};
ghost use Rattle.fam_commands.specs.Counts.{steps_of};
ghost use Rattle.fam_machine.specs.Operations.{Breaking, Failure, Machine, failed, given, operated, IsInImage};
ghost use Rattle.fam_commands.specs.Kept.{IsKept, Kept};
ghost use Rattle.fam_commands.specs.Solo.{SoloRun, Stand, image_turn, image_word, notes_up_to, stand_after, turn_on};
ghost use Rattle.fam_commands.specs.Stands.{StandsFor, with_given};
ghost use Rattle.fam_commands.specs.Task.{Task, op_of};
ghost use Rattle.fam_commands.specs.Turns.{Ends};
ghost use Rattle.fam_rules.specs.Solo.{solo_image, solo_reply};
ghost use Rattle.fam_rules.specs.Decide.{wish_of};
ghost use Rattle.fam_rules.specs.Place.{line_bytes};
ghost use Rattle.fam_rules.specs.Reply.{Reply};
ghost use Rattle.fam_commands.specs.Appends.{IsBeforeWrites};
ghost use Rattle.fam_solo.specs.Solo.{settles_up_to};
ghost use Rattle.fam_protocol.specs.Steps.{turn_settles};
ghost use Rattle.fam_protocol.specs.Invariant.{KeepsFront, settled_at_first};
ghost use Rattle.fam_protocol.specs.Tasks.{IsCommand};

/// What a command answers is what the rules say of the image that it began with (`reply`), and memory is then what they
/// say that it leaves: one entry more where it appended one, and else the image as it was (`left`). Its cache has
/// nothing to send then, as at first (`sent`), so the next command may follow, on this host or on another. What its
/// notes and its answer settle is then told by the image that it leaves, so nothing is pending (`settled`). All this
/// holds of each command, on each image that has a gate and at most 1 TiB, sound or damaged; and of each host, whether
/// it keeps nothing or a front of what the image settles.
pub fn a_solo_command_answers_by_the_image()
    ensures reply { (kept : Option Kept) (image : Image) (me : List ℕ) (cmd : Cmd) (cache : Cache) (t : Task) (words : List ℕ)
        (made : ℕ) (m : Machine) (reply : Reply) → least_lines ≤ length image → line_bytes * length image ≤ device_limit
        → map eight image ≡ image → IsClean cache → IsCommand cmd
        → IsKept kept → KeepsFront (settled_at_first image) kept → SoloRun kept cmd me image cache t words made m
        → IsInImage (op_of t) m → turn_on t m ≡ Ends reply → reply ≡ solo_reply image me cmd }
    ensures left { (kept : Option Kept) (image : Image) (me : List ℕ) (cmd : Cmd) (cache : Cache) (t : Task) (words : List ℕ) (made : ℕ)
        (m : Machine) (reply : Reply) → least_lines ≤ length image → line_bytes * length image ≤ device_limit
        → map eight image ≡ image → IsClean cache → IsCommand cmd
        → IsKept kept → KeepsFront (settled_at_first image) kept → SoloRun kept cmd me image cache t words made m
        → IsInImage (op_of t) m → turn_on t m ≡ Ends reply → (operated (op_of t) m).image ≡ solo_image image me cmd }
    ensures sent { (kept : Option Kept) (image : Image) (me : List ℕ) (cmd : Cmd) (cache : Cache) (t : Task) (words : List ℕ) (made : ℕ)
        (m : Machine) (reply : Reply) → least_lines ≤ length image → line_bytes * length image ≤ device_limit
        → map eight image ≡ image → IsClean cache → IsCommand cmd
        → IsKept kept → KeepsFront (settled_at_first image) kept → SoloRun kept cmd me image cache t words made m
        → IsInImage (op_of t) m → turn_on t m ≡ Ends reply → IsClean (operated (op_of t) m).cache }
    ensures settled { (kept : Option Kept) (image : Image) (me : List ℕ) (cmd : Cmd) (cache : Cache) (t : Task) (words : List ℕ)
        (made : ℕ) (m : Machine) (reply : Reply) → least_lines ≤ length image → line_bytes * length image ≤ device_limit
        → map eight image ≡ image → IsClean cache → IsCommand cmd
        → IsKept kept → KeepsFront (settled_at_first image) kept → (ran : SoloRun kept cmd me image cache t words made m)
        → IsInImage (op_of t) m → turn_on t m ≡ Ends reply
        → turn_settles (Ends reply) (settles_up_to kept cmd me image cache t words made m ran (settled_at_first image))
        ≡ settled_at_first (operated (op_of t) m).image }
{}

/// Each load of a command alone gives the image's word, whatever copies its cache held at first (`given`). So the image
/// tells where the command stands after so many operations, which words its loads gave and what it noted (`stands`),
/// and it ends at one place (`once`): all notes are a function of the image.
pub fn a_solo_command_reads_the_image()
    ensures given { (kept : Option Kept) (image : Image) (me : List ℕ) (cmd : Cmd) (cache : Cache) (t : Task) (words : List ℕ)
        (made : ℕ) (m : Machine) →
        map eight image ≡ image → IsClean cache → SoloRun kept cmd me image cache t words made m
        → given (op_of t) m ≡ image_word image (op_of t) }
    ensures stands { (kept : Option Kept) (image : Image) (me : List ℕ) (cmd : Cmd) (cache : Cache) (t : Task) (words : List ℕ)
        (made : ℕ) (m : Machine) →
        map eight image ≡ image → IsClean cache → (ran : SoloRun kept cmd me image cache t words made m)
        → stand_after kept cmd me image made ≡ Some (record {
          task = t;
          words = words;
          notes = notes_up_to kept cmd me image cache t words made m ran;
        }) }
    ensures once { (kept : Option Kept) (image : Image) (me : List ℕ) (cmd : Cmd) (made other : ℕ) (s r : Stand) (reply answer : Reply) →
        stand_after kept cmd me image made ≡ Some s → image_turn image s ≡ Ends reply
        → stand_after kept cmd me image other ≡ Some r → image_turn image r ≡ Ends answer → s ≡ r }
{}

/// A command that appends nothing never changes memory: after any number of its operations the image is what it was
/// (`image`), and so it is where the media fails in the next one (`failure`).
pub fn a_reader_leaves_the_image()
    ensures image { (kept : Option Kept) (image : Image) (me : List ℕ) (cmd : Cmd) (cache : Cache) (t : Task) (words : List ℕ)
        (made : ℕ) (m : Machine) →
        map eight image ≡ image → IsClean cache → IsKept kept → wish_of cmd ≡ None → SoloRun kept cmd me image cache t words made m
        → m.image ≡ image }
    ensures failure { (kept : Option Kept) (image : Image) (me : List ℕ) (cmd : Cmd) (cache : Cache) (t : Task) (words : List ℕ)
        (made : ℕ) (m : Machine)
        (through : Breaking) (failure : Failure) → map eight image ≡ image → IsClean cache → IsKept kept → wish_of cmd ≡ None
        → SoloRun kept cmd me image cache t words made m → failed through (op_of t) m ≡ Some failure
        → failure.left.image ≡ image }
{}

/// A command that appends doesn't change memory either while it reads and decides: up to the first store of its
/// entry the image is what it was (`image`), also where the media fails (`failure`).
pub fn an_append_leaves_the_image_up_to_its_first_store()
    ensures image { (kept : Option Kept) (image : Image) (me : List ℕ) (cmd : Cmd) (cache : Cache) (t : Task) (words : List ℕ)
        (made : ℕ) (m : Machine) →
        map eight image ≡ image → IsClean cache → SoloRun kept cmd me image cache t words made m → IsBeforeWrites t.phase
        → m.image ≡ image }
    ensures failure { (kept : Option Kept) (image : Image) (me : List ℕ) (cmd : Cmd) (cache : Cache) (t : Task) (words : List ℕ)
        (made : ℕ) (m : Machine)
        (through : Breaking) (failure : Failure) → map eight image ≡ image → IsClean cache → SoloRun kept cmd me image cache t words made m
        → IsBeforeWrites t.phase → failed through (op_of t) m ≡ Some failure
        → failure.left.image ≡ image }
{}

/// A task that came so far alone stands for its command, by the words that its loads gave (`stands`). Where it ends,
/// the operations that it made, with the last one, are as many as its answer says (`count`).
pub fn the_operations_of_a_solo_command_are_counted()
    ensures stands { (kept : Option Kept) (image : Image) (me : List ℕ) (cmd : Cmd) (cache : Cache) (t : Task) (words : List ℕ)
        (made : ℕ) (m : Machine) →
        SoloRun kept cmd me image cache t words made m → StandsFor kept cmd me (length image) t words made }
    ensures count { (kept : Option Kept) (image : Image) (me : List ℕ) (cmd : Cmd) (cache : Cache) (t : Task) (words : List ℕ)
        (made : ℕ) (m : Machine) (reply : Reply) → IsKept kept → SoloRun kept cmd me image cache t words made m → turn_on t m ≡ Ends reply
        → made + 1 ≡ steps_of kept cmd (length image) (with_given words (given (op_of t) m)) reply }
{}
