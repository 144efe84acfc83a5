//! Laws of operations in which the media fails.

ghost use Rattle.std.specs.Prelude.{◌≡◌, ◌≢◌, Some};
ghost use Rattle.fam_machine.specs.Operations.{Breaking, Failure, Machine, failed, op_line};
ghost use Rattle.fam_machine.specs.declared.op.Op.{Op};

/// An operation but a fence asks for one line: the media fails at this line (`line`), and the host's cache is as before
/// (`cache`).
pub fn an_operation_fails_at_its_line()
    ensures line { (through : Breaking) (op : Op) (m : Machine) (failure : Failure) → op ≢ Op.Fence →
        failed through op m ≡ Some failure → op_line op ≡ Some failure.line }
    ensures cache { (through : Breaking) (op : Op) (m : Machine) (failure : Failure) → op ≢ Op.Fence →
        failed through op m ≡ Some failure → failure.left.cache ≡ m.cache }
{}
