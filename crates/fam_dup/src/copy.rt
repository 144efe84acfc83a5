//! Copying a file system.

ghost use Rattle.std.specs.Prelude.{◌≡◌, IfErr, OnOk, true};
ghost use Rattle.fam_media.specs.Causes.{IsSteady};
ghost use Rattle.fam_media.specs.Outside.{IfModelled};
ghost use Rattle.fam_dup.specs.Ends.{AreAsked, Becomes, DupEnds, IsAskedIn, IsDupCaused, NamesLine, from_counted, to_counted};
ghost use Rattle.fam_dup.specs.Findings.{fault_class};

use crate::copies::plan_copies;
use crate::fault::DupFault;
use crate::files::run_buffer;
use crate::source::read_source;
use crate::target::check_target;
use crate::writes::write_copy;
use fam_base::Params;
use fam_format::LEAST_LINES;
use fam_media::Media;
use std::alloc::Global;

/// Copies the file system on FROM onto TO, with these parameters, and says how many entries it has. Each file has its
/// bytes in one extent.
///
/// What is against the copy is named before anything is written, the first cause of these: FROM is too small, or has a
/// fault; TO is too small, or has a superblock and isn't forced; an entry has no slot or no room. Behind a fault of a
/// media TO reads as before, as no file system, or as the whole copy. Want of memory changes nothing.
#[tactic(auto, using(crate::proofs::Naming::from_names, crate::proofs::Naming::to_names, crate::proofs::Naming::own_names, crate::proofs::Naming::memory_names))]
pub fn dup<M: Media, N: Media>(
    alloc: Global,
    from: &mut M,
    to: &mut N,
    params: &Params,
    force: bool,
) -> Result<u64, DupFault>
    requires asked { AreAsked params.now (N.size to.old) }
    ensures ends { IfModelled (M.state from.old).image (λ source. Becomes (N.state to.old).image (N.state to.new).image
        (λ old new. DupEnds source old new params.now force result)) }
    ensures cause { IfErr result (λ fault. IsDupCaused (M.state from.old).faults (M.state from.new).faults
        (N.state to.old).faults (N.state to.new).faults fault) }
    ensures asked { IfErr result (λ fault. IfModelled (M.state from.old).image (λ source. IfModelled (N.state to.old).image
        (λ old. IsAskedIn source old (N.state to.new).image params.now force fault))) }

    // A media that counts exactly has failed once where the fault tells it, and never else.
    ensures quiet_from { OnOk result (M.exact ≡ true → (M.state from.new).faults ≡ (M.state from.old).faults) }
    ensures quiet_to { OnOk result (N.exact ≡ true → (N.state to.new).faults ≡ (N.state to.old).faults) }
    ensures counted_from { IfErr result (λ fault. M.exact ≡ true → (M.state from.new).faults ≡ from_counted (fault_class fault) (M.state from.old).faults) }
    ensures counted_to { IfErr result (λ fault. N.exact ≡ true → (N.state to.new).faults ≡ to_counted (fault_class fault) (N.state to.old).faults) }
    ensures line { IfErr result (λ fault. NamesLine (M.size from.old) (N.size to.old) fault) }
    ensures same { (M.state from.new).image ≡ (M.state from.old).image }
    ensures steady_from { IsSteady M.size M.state from.old from.new }
    ensures steady_to { IsSteady N.size N.state to.old to.new }
{
    let lines = from.lines();
    if lines < LEAST_LINES {
        return Err(DupFault::ImageSmall(lines));
    }
    let source = read_source(alloc, from)?;
    check_target(to, params, force)?;
    let copies = plan_copies(alloc, &source, params)?;
    let mut buffer = run_buffer(alloc)?;
    source.each_entry_joins();
    write_copy(from, to, &source, &copies, &mut buffer)?;
    Ok(copies.count())
}
