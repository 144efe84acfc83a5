//! So many operations of a host's task.

ghost use Rattle.std.specs.Prelude.{◌≡◌, ◌<◌, ℕ, Option};
ghost use Rattle.fam_journal.specs.declared.event.Event.TheVariants.{Step};
ghost use Rattle.fam_journal.specs.CallRecords.{FitsMedia};
ghost use Rattle.fam_journal.specs.Calls.{Steps};
ghost use Rattle.fam_world.specs.Answers.{IsUntouched};
ghost use Rattle.fam_journal.specs.Shapes.{IsShaped};
ghost use Rattle.fam_media.specs.Files.{Files};
ghost use Rattle.fam_media.specs.States.{ShelfChange};
ghost use Rattle.fam_events.specs.WorldChange.{world_change};
ghost use Rattle.fam_events.specs.Happens.{EventSays};

use crate::fault::EventFault;
use fam_base::HostName;
use fam_media::Media;
use fam_world::{World, WorldFault};

/// Does so many operations of a host's task, or fewer where it answers.
pub(crate) fn step<M: Media>(
    world: &mut World,
    media: &mut M,
    name: &HostName,
    count: u64,
) -> Result<(), EventFault>
    requires some { 0 < count }
    requires shaped { IsShaped world.old }
    requires fits { FitsMedia (M.size media.old) world.old.hosts }
    ensures says { (shelf : ShelfChange) (files : Option Files) (copied : ℕ) → EventSays (Step name.now count) shelf
        (world_change M.size M.state media.old media.new world.old world.new files copied copied) result }
    ensures untouched { IsUntouched (Steps name.now) (M.size media.old) world.old media.old media.new }
    ensures size { M.size media.new ≡ M.size media.old }
{
    match world.steps(media, name, count) {
        Ok(_) => Ok(()),
        Err(WorldFault::Refused(_)) => Ok(()),
        Err(WorldFault::OutOfMemory) => Err(EventFault::OutOfMemory),
    }
}
