//! Calls of the public surface that the program doesn't make.

use super::random::small;
use fam_base::HostName;
use fam_journal::Refusal;
use fam_media::MemMedia;
use fam_plan::Plan;
use fam_tasks::Kept;
use fam_world::{World, WorldFault};
use std::test::Fail;

/// The lines of an image of 4 MiB.
const LINES: u64 = 65_536;

#[test]
fn a_step_of_nobody_is_refused(rt: HostRuntime) -> Result<(), Fail> {
    let mut media = MemMedia::new(rt.alloc(), LINES)?;
    let mut world = World::new(rt.alloc());
    let c = HostName::read(b"c")?;
    let refused = world.step(&mut media, &c);
    assert!(rt; matches!(refused, Err(WorldFault::Refused(Refusal::NoHost))));
    assert!(rt; world.journal().len() == 1);
    Ok(())
}

#[test]
fn what_a_host_keeps_is_copied(rt: HostRuntime) -> Result<(), Fail> {
    let kept = Kept::of(Plan::new(rt.alloc(), &small())?);
    let copy = kept.copy(rt.alloc())?;
    assert!(rt; copy.count() == kept.count());
    Ok(())
}
