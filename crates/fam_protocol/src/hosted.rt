//! One host's machine and its tasks, as the protocol of all hosts has them. A law has an empty body.

ghost use Rattle.std.specs.Prelude.{◌≡◌, ◌*◌, ◌<◌, ◌≤◌, ℕ, Some, length, map as map_list, unwrap_or};
ghost use Rattle.fam_base.specs.Image.{Image, eight};
ghost use Rattle.fam_format.specs.Layout.{device_limit};
ghost use Rattle.fam_machine.specs.HostMoves.{Move, move_failed, moved};
ghost use Rattle.fam_machine.specs.Operations.{Breaking, Failure, Machine, failed, given, machine, operated, IsInImage};
ghost use Rattle.fam_commands.specs.Task.{op_of};
ghost use Rattle.fam_machine.specs.declared.op.Op.{Op};
ghost use Rattle.fam_protocol.specs.After.{Run};
ghost use Rattle.fam_protocol.specs.Core.{IsWide};
ghost use Rattle.fam_protocol.specs.Hosted.{ActsAs, IsMachineOf};
ghost use Rattle.fam_protocol.specs.SharedState.{Breaks, TransfersAt, Operates, SharedState};
ghost use Rattle.fam_protocol.specs.Invariant.{Hosts, Settled, Invariant};
ghost use Rattle.fam_rules.specs.Place.{line_bytes};

/// What a host does on its machine, which is memory and its own cache, while no other cache changes, is what the
/// protocol has of it.
pub fn a_host_acts_on_its_machine()
    // An operation that is done is the protocol's, with the word that it gives.
    ensures operates { (host : ℕ) (m : Machine) (old new : SharedState) (op : Op) → ActsAs host m (operated op m) old new
        → IsWide old → IsInImage op m → Operates op host old new (unwrap_or (given op m) 0) }

    // A cache's own move is a transfer at its line.
    ensures moves { (host : ℕ) (m : Machine) (old new : SharedState) (move : Move) (line : ℕ)
        → ActsAs host m (moved move line m) old new → IsWide old → line < length m.image
        → TransfersAt host line old new }

    // Where the media fails, in an operation or in a cache's own move, that is a transfer at its line too. A fence had
    // sent some lines before.
    ensures failed { (host : ℕ) (m : Machine) (old new : SharedState) (op : Op) (through : Breaking) (failure : Failure)
        → ActsAs host m failure.left old new → IsWide old → map_list eight m.image ≡ m.image → IsInImage op m
        → failed through op m ≡ Some failure → Breaks host failure.line.0 old new }
    ensures move_failed { (host : ℕ) (m : Machine) (old new : SharedState) (move : Move) (line through : ℕ) (left : Image)
        → ActsAs host m (machine left m.cache) old new → map_list eight m.image ≡ m.image → line < length m.image
        → move_failed move line through m ≡ Some left → TransfersAt host line old new }
{}

/// A task's next operation, wherever it stands and whatever its command is, asks for lines of the image, or for none.
pub fn a_task_asks_for_lines_of_the_image()
    ensures { (settled : Settled) (lines : ℕ) (hosts : Hosts) (s : SharedState) (host : ℕ) (r : Run) (m : Machine)
        → line_bytes * lines ≤ device_limit → Invariant settled lines hosts s → hosts.run host ≡ Some r
        → IsMachineOf host m s → length m.image ≡ lines → IsInImage (op_of r.task) m }
{}
