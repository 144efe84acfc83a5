//! FROM, read up to its last entry.

ghost use Rattle.std.specs.Prelude.{◌≡◌, ◌*◌, ◌≤◌, ◌<◌, IfErr, IfOk, OnOk, List, true, Ok};
ghost use Rattle.fam_base.specs.declared.entry.Entry.{Entry as EntryValue};
ghost use Rattle.fam_base.specs.Image.{line_at};
ghost use Rattle.fam_format.specs.Layout.{least_lines};
ghost use Rattle.fam_format.specs.Params.{SoundParams};
ghost use Rattle.fam_format.specs.Reading.{reading, super_in};
ghost use Rattle.fam_format.specs.Reading as read;
ghost use Rattle.fam_media.specs.Causes.{IsSteady};
ghost use Rattle.fam_media.specs.Outside.{IfModelled};
ghost use Rattle.fam_rules.specs.Place.{line_bytes};
ghost use Rattle.fam_dup.specs.Ends.{FailsFromAt, IsCausedByFrom, IsReadAt, NamesLine, from_counted, of_read};
ghost use Rattle.fam_dup.specs.Findings.{FaultInSuper, Finding, Names, Refuses, fault_class, from_or};

use crate::fault::DupFault;
use crate::lines::{FailedAt, superblock};
use fam_base::Params;
use fam_format::SuperFault;
use fam_media::Media;
use fam_plan::Plan;
use fam_replay::{ReadFault, read_behind};
use std::alloc::Global;

/// A fault of FROM's superblock.
fn fault_of_super(fault: SuperFault) -> DupFault
    ensures { fault_class result ≡ Refuses (FaultInSuper fault) }
{
    match fault {
        SuperFault::NoSuper(word) => DupFault::NoSuper(word),
        SuperFault::BadSuper {
            field,
            found,
            wanted,
        } => DupFault::BadSuper {
            field,
            found,
            wanted,
        },
    }
}

/// A fault of FROM's log.
fn fault_of_read(fault: ReadFault) -> DupFault
    ensures { result ≡ of_read fault }
{
    match fault {
        ReadFault::NoSuper(word) => DupFault::NoSuper(word),
        ReadFault::BadSuper {
            field,
            found,
            wanted,
        } => DupFault::BadSuper {
            field,
            found,
            wanted,
        },
        ReadFault::BadLog {
            field,
            found,
            wanted,
        } => DupFault::BadLog {
            field,
            found,
            wanted,
        },
        ReadFault::BadEntry { seq, reason } => DupFault::BadEntry { seq, reason },
        ReadFault::MediaFault(line) => DupFault::FromFault(line),
        ReadFault::OutOfMemory => DupFault::OutOfMemory,
    }
}

/// What FROM's superblock tells.
fn read_params<M: Media>(from: &mut M) -> Result<Params, DupFault>
    requires within { least_lines ≤ M.size from.old }
    ensures told { IfOk result (λ p. IfModelled (M.state from.old).image (λ image.
        super_in (line_at image) (line_bytes * M.size from.old) ≡ Ok p)) }
    ensures sound { IfOk result (λ p. SoundParams p) }
    ensures device { IfOk result (λ p. p.device ≤ line_bytes * M.size from.old) }
    ensures fault { IfErr result (λ fault. IfModelled (M.state from.old).image (λ image. (rest : List EntryValue → Finding)
        → Names (fault_class fault) (from_or (read.read_super (line_at image) (super_in (line_at image) (line_bytes * M.size from.old))) rest))) }
    ensures cause { IfErr result (λ fault. IsCausedByFrom (M.state from.old).faults (M.state from.new).faults (fault_class fault)) }
    ensures asked { IfErr result (FailsFromAt (λ at. at < 3)) }
    ensures quiet { OnOk result (M.exact ≡ true → (M.state from.new).faults ≡ (M.state from.old).faults) }
    ensures counted { IfErr result (λ fault. M.exact ≡ true → (M.state from.new).faults ≡ from_counted (fault_class fault) (M.state from.old).faults) }
    ensures line { IfErr result (λ fault. NamesLine (M.size from.old) 0 fault) }
    ensures same { (M.state from.new).image ≡ (M.state from.old).image }
    ensures steady { IsSteady M.size M.state from.old from.new }
{
    match superblock(from) {
        Ok(Ok(params)) => Ok(params),
        Ok(Err(fault)) => Err(fault_of_super(fault)),
        Err(FailedAt(line)) => Err(DupFault::FromFault(line)),
    }
}

/// FROM's entries, in a plan of its parameters: lines 0, 1 and 2 are read, the log's header and its gate, and the slots below it,
/// each once and in this order. A fault is the first of FROM's superblock, of its log or of a slot; `FromFault`, where FROM failed;
/// or `OutOfMemory`.
pub(crate) fn read_source<M: Media>(alloc: Global, from: &mut M) -> Result<Plan, DupFault>
    requires within { least_lines ≤ M.size from.old }
    ensures told { IfOk result (λ plan. IfModelled (M.state from.old).image (λ image. reading image ≡ read.Sound plan.params plan.entries)) }
    ensures device { IfOk result (λ plan. plan.params.device ≤ line_bytes * M.size from.old) }
    ensures fault { IfErr result (λ fault. IfModelled (M.state from.old).image (λ image. (rest : List EntryValue → Finding)
        → Names (fault_class fault) (from_or (reading image) rest))) }
    ensures cause { IfErr result (λ fault. IsCausedByFrom (M.state from.old).faults (M.state from.new).faults (fault_class fault)) }
    ensures asked { IfErr result (λ fault. IfModelled (M.state from.old).image (λ image. FailsFromAt (IsReadAt image) fault)) }
    ensures quiet { OnOk result (M.exact ≡ true → (M.state from.new).faults ≡ (M.state from.old).faults) }
    ensures counted { IfErr result (λ fault. M.exact ≡ true → (M.state from.new).faults ≡ from_counted (fault_class fault) (M.state from.old).faults) }
    ensures line { IfErr result (λ fault. NamesLine (M.size from.old) 0 fault) }
    ensures same { (M.state from.new).image ≡ (M.state from.old).image }
    ensures steady { IsSteady M.size M.state from.old from.new }
{
    let params = read_params(from)?;
    match read_behind(alloc, from, &params) {
        Ok(plan) => Ok(plan),
        Err(fault) => Err(fault_of_read(fault)),
    }
}
