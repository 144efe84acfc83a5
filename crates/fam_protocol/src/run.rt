//! How a run begins, and that whatever happens in it keeps the protocol. A law has an empty body.

ghost use Rattle.std.specs.Prelude.{[], ◌*◌, ◌≡◌, ◌≢◌, ◌≤◌, List, None, length, ℕ};
ghost use Rattle.fam_base.specs.Image.{Image};
ghost use Rattle.fam_base.specs.declared.cmd.Cmd.{Cmd};
ghost use Rattle.fam_base.specs.declared.entry.Params.{Params};
ghost use Rattle.fam_format.specs.Layout.{device_limit, least_lines};
ghost use Rattle.fam_protocol.specs.After.{Run};
ghost use Rattle.fam_protocol.specs.Core.{IsWide};
ghost use Rattle.fam_protocol.specs.Events.{Clears, Declares, Formats, MayFormat, Starts, Stops};
ghost use Rattle.fam_protocol.specs.SharedState.{Breaks, TransfersAt, Loses, SharedState};
ghost use Rattle.fam_protocol.specs.Steps.{StepHolds, Steps};
ghost use Rattle.fam_protocol.specs.Invariant.{AreHosts, Damaged, Hosts, Invariant, KeepFronts, Known, Rests, Settled, no_hosts, settled_at_first, shared_with, solo};
ghost use Rattle.fam_machine.specs.declared.cell.Cell.{Cell};
ghost use Rattle.fam_rules.specs.Asks.{File};
ghost use Rattle.fam_rules.specs.Place.{line_bytes};

/// Every image of at most 1 TiB, whatever it holds, is the beginning of a run: before any host is declared and
/// while every cache is empty, what the protocol keeps holds of it. What it settles is told by its reading: nothing
/// where it is too small or damaged, and else its entries.
pub fn an_image_begins_a_run()
    ensures { (image : Image) → line_bytes * length image ≤ device_limit
        → Invariant (settled_at_first image) (length image) no_hosts (solo image) }
{}

/// The same holds between commands, of any number of hosts: of every image, while no host has a task and no cache has
/// anything to send, however stale its copies are, and each keeps a front of the image's history or nothing (`again`). And where nothing is pending then, what is settled is told
/// by the image's reading (`told`).
pub fn an_image_at_rest_begins_a_run()
    ensures again { (image : Image) (hosts : Hosts) (copy : ℕ → ℕ → Cell) → line_bytes * length image ≤ device_limit
        → Rests hosts (shared_with image copy) → KeepFronts (settled_at_first image) hosts
        → Invariant (settled_at_first image) (length image) hosts (shared_with image copy) }
    ensures told { (image : Image) (hosts : Hosts) (copy : ℕ → ℕ → Cell) (p : Params) (all : List File)
        → line_bytes * length image ≤ device_limit → Rests hosts (shared_with image copy)
        → Invariant (Known p all (length all)) (length image) hosts (shared_with image copy)
        → settled_at_first image ≡ Known p all (length all) }
{}

/// Whatever happens next, what the protocol keeps holds again: for every image, any number of hosts, any commands,
/// and in any order.
pub fn every_step_keeps_the_protocol()
    // A cache of a declared host moves by itself at any line: it brings, sends, drops or refreshes it, or a word.
    ensures transfer { (settled : Settled) (lines host line : ℕ) (hosts : Hosts) (s s2 : SharedState)
        → Invariant settled lines hosts s → TransfersAt host line s s2 → hosts.uuid host ≢ None
        → Invariant settled lines hosts s2 }

    // The media fails in an operation of a declared host.
    ensures broken { (settled : Settled) (lines host line : ℕ) (hosts : Hosts) (s s2 : SharedState)
        → Invariant settled lines hosts s → Breaks host line s s2 → hosts.uuid host ≢ None
        → Invariant settled lines hosts s2 }

    // A task does its operation and takes its turn. It also says what it may: `TurnSays`.
    ensures step { (settled : Settled) (lines host word : ℕ) (r : Run) (old new : Hosts) (s s2 : SharedState)
        → Invariant settled lines old s → Steps host word settled r old new s s2
        → StepHolds settled lines word r old new s2 }

    // A host is declared, with a UUID of its own.
    ensures host { (settled : Settled) (lines host : ℕ) (id : List ℕ) (old new : Hosts) (s : SharedState)
        → Invariant settled lines old s → Declares host id old new → Invariant settled lines new s }

    // A declared host begins a command.
    ensures task { (settled : Settled) (lines host : ℕ) (cmd : Cmd) (old new : Hosts) (s : SharedState)
        → Invariant settled lines old s → least_lines ≤ lines → Starts host cmd lines old new
        → Invariant settled lines new s }

    // A host's task is dropped, wherever it stands.
    ensures stop { (settled : Settled) (lines host : ℕ) (old new : Hosts) (s : SharedState)
        → Invariant settled lines old s → Stops host old new → Invariant settled lines new s }

    // A host halts: its task and all of its cache are lost.
    ensures halt { (settled : Settled) (lines host : ℕ) (old new : Hosts) (s s2 : SharedState)
        → Invariant settled lines old s → Stops host old new → Loses host s s2 → Invariant settled lines new s2 }

    // A file system is made, on any image. Then nothing is settled but that it is empty.
    ensures made { (p : Params) (lines maker : ℕ) (hosts : Hosts) (s s2 : SharedState)
        → AreHosts hosts s → MayFormat maker p lines hosts s → Formats maker p s s2 → IsWide s2
        → Invariant (Known p [] 0) lines hosts s2 }

    // The maker of a file system halts behind its first send, on any image. Then the image has no superblock.
    ensures cleared { (p : Params) (lines maker : ℕ) (hosts : Hosts) (s s2 : SharedState)
        → AreHosts hosts s → MayFormat maker p lines hosts s → Clears maker s s2 → IsWide s2
        → Invariant (Damaged s2.memory) lines hosts s2 }
{}
