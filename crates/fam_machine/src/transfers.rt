//! Laws of the machine at one line: each operation but a store is a transfer, a list of moves that a cache may
//! make by itself. So what every move keeps, every operation keeps.

ghost use Rattle.std.specs.Prelude.{◌≡◌, ◌<◌, ℕ, List, Some, length, map as map_list};
ghost use Rattle.fam_base.specs.Image.{Image, eight};
ghost use Rattle.fam_machine.specs.Fences.{Breaks};
ghost use Rattle.fam_machine.specs.HostMoves.{Move, move_failed, moved_cell, moved_words};
ghost use Rattle.fam_machine.specs.Moves.{Transfers};
ghost use Rattle.fam_machine.specs.OneLine.{asked_for, brought, cleaned, failed_leak, failed_send, fetched, leaked, sent};
ghost use Rattle.fam_machine.specs.Operations.{Breaking, Failure, Machine, failed, IsInImage};
ghost use Rattle.fam_machine.specs.TearsLine.{TearsLineAt};
ghost use Rattle.fam_machine.specs.declared.cell.Cell.{Cell};
ghost use Rattle.fam_machine.specs.declared.op.Op.{Op};

/// A load brings an absent line; so does a store, before it sets its word.
pub fn bring_transfers()
    ensures { (m : List ℕ) (c : Cell) → Transfers m c m (brought m c) }
{}

/// A write-back asks for a dirty line to be sent; a fence sends it, and it becomes clean; an invalidation and an eviction
/// send it and make it absent.
pub fn send_transfers()
    ensures write_back { (m : List ℕ) (c : Cell) → Transfers m c m (asked_for c) }
    ensures fence { (m : List ℕ) (c : Cell) → Transfers m c (sent m c) (cleaned c) }
    ensures invalidate { (m : List ℕ) (c : Cell) → Transfers m c (sent m c) Cell.Absent }

    // Memory may get the words at any time, and the copy keeps its mark.
    ensures kept { (m : List ℕ) (c : Cell) → Transfers m c (sent m c) c }

    // A send that fails: some of the words came through.
    ensures failed { (mask : ℕ) (m words : List ℕ) (c : Cell) →
        failed_send mask m c ≡ Some words → Transfers m c words c }
{}

/// A leak sends masked words of a dirty line, also where it fails.
pub fn leak_transfers()
    ensures leak { (mask : ℕ) (m : List ℕ) (c : Cell) → Transfers m c (leaked mask m c) c }
    ensures failed { (mask through : ℕ) (m words : List ℕ) (c : Cell) →
        failed_leak mask through m c ≡ Some words → Transfers m c words c }
{}

/// A fetch brings an absent line, and refreshes masked words of a clean one.
pub fn fetch_transfers()
    ensures { (mask : ℕ) (m : List ℕ) (c : Cell) → Transfers m c m (fetched mask m c) }
{}

/// A cache's own move, an eviction, a leak or a fetch, is a transfer.
pub fn own_moves_transfer()
    ensures { (move : Move) (m : List ℕ) (c : Cell) → Transfers m c (moved_words move m c) (moved_cell move m c) }
{}

/// Where the media fails, in an operation or in a cache's own move, one line of memory has other words, and it drifted
/// there while the host's copy stayed. A fence had sent other lines whole before.
pub fn failures_tear_line()
    ensures operation { (op : Op) (m : Machine) (through : Breaking) (failure : Failure) →
        map_list eight m.image ≡ m.image → IsInImage op m → failed through op m ≡ Some failure → Breaks m failure }
    ensures own_move { (move : Move) (line : ℕ) (m : Machine) (through : ℕ) (left : Image) →
        map_list eight m.image ≡ m.image → line < length m.image → move_failed move line through m ≡ Some left →
        TearsLineAt line m.image left m.cache }
{}
