//! Moves that a host's cache makes by itself, as the machine may.

ghost use Rattle.std.specs.Prelude.{◌≡◌, ◌<◌, IsErrOf};
ghost use Rattle.fam_machine.specs.Operations.{machine};
ghost use Rattle.fam_media.specs.States.{change};
ghost use Rattle.fam_machine.specs.HostMoves as how;
ghost use Rattle.fam_journal.specs.Calls.{Moves};
ghost use Rattle.fam_journal.specs.CallRecords.{MediaCall};
ghost use Rattle.fam_world.specs.Answers.{IfAnswered, IsUntouched};
ghost use Rattle.fam_cache.specs.OwnMoves.{move_of};

use super::World;
use crate::fault::WorldFault;
use crate::find::holder;
use crate::notes::{make_room, refused};
use fam_base::{HostName, LineNo, Mask};
use fam_cache::{CacheFault, OwnMove};
use fam_journal::Refusal;
use fam_media::Media;

impl World {
    /// Sends a line of a host's cache, where it is dirty, and drops it. `NoHost`, or else `NoLine` where the media has no
    /// such line; `MediaFault` where the media failed, and then the cache is as it was.
    pub fn evict<M: Media>(
        &mut self,
        media: &mut M,
        name: &HostName,
        line: LineNo,
    ) -> Result<(), WorldFault>
        ensures answered { IfAnswered result (λ answered. MediaCall (Moves name.now line.0 how.Evict) (M.size media.old)
            answered (change M.state media.old media.new) self.old self.new) }
        ensures untouched { IsUntouched (Moves name.now line.0 how.Evict) (M.size media.old) self.old media.old media.new }
        ensures undone { IsErrOf result WorldFault.OutOfMemory → media.new ≡ media.old }
        ensures err { IsErrOf result WorldFault.OutOfMemory → self.new ≡ self.old }
        ensures size { M.size media.new ≡ M.size media.old }
    {
        self.move_line(media, name, line, OwnMove::Evict)
    }

    /// Sends the masked words of a line of a host's cache, where it is dirty. It stays dirty. Refused as `evict`.
    pub fn leak<M: Media>(
        &mut self,
        media: &mut M,
        name: &HostName,
        line: LineNo,
        mask: Mask,
    ) -> Result<(), WorldFault>
        ensures answered { IfAnswered result (λ answered. MediaCall (Moves name.now line.0 (how.Leak mask.0)) (M.size media.old)
            answered (change M.state media.old media.new) self.old self.new) }
        ensures untouched { IsUntouched (Moves name.now line.0 (how.Leak mask.0)) (M.size media.old) self.old media.old media.new }
        ensures undone { IsErrOf result WorldFault.OutOfMemory → media.new ≡ media.old }
        ensures err { IsErrOf result WorldFault.OutOfMemory → self.new ≡ self.old }
        ensures size { M.size media.new ≡ M.size media.old }
    {
        self.move_line(media, name, line, OwnMove::Leak(mask))
    }

    /// Brings a line into a host's cache where it is absent, and refreshes its masked words where it is clean. Refused as
    /// `evict`.
    pub fn fetch<M: Media>(
        &mut self,
        media: &mut M,
        name: &HostName,
        line: LineNo,
        mask: Mask,
    ) -> Result<(), WorldFault>
        ensures answered { IfAnswered result (λ answered. MediaCall (Moves name.now line.0 (how.Fetch mask.0)) (M.size media.old)
            answered (change M.state media.old media.new) self.old self.new) }
        ensures untouched { IsUntouched (Moves name.now line.0 (how.Fetch mask.0)) (M.size media.old) self.old media.old media.new }
        ensures undone { IsErrOf result WorldFault.OutOfMemory → media.new ≡ media.old }
        ensures err { IsErrOf result WorldFault.OutOfMemory → self.new ≡ self.old }
        ensures size { M.size media.new ≡ M.size media.old }
    {
        self.move_line(media, name, line, OwnMove::Fetch(mask))
    }

    /// A host's cache makes a move at a line.
    fn move_line<M: Media>(
        &mut self,
        media: &mut M,
        name: &HostName,
        line: LineNo,
        what: OwnMove,
    ) -> Result<(), WorldFault>
        ensures answered { IfAnswered result (λ answered. MediaCall (Moves name.now line.0 (move_of what)) (M.size media.old)
            answered (change M.state media.old media.new) self.old self.new) }
        ensures untouched { IsUntouched (Moves name.now line.0 (move_of what)) (M.size media.old) self.old media.old media.new }
        ensures undone { IsErrOf result WorldFault.OutOfMemory → media.new ≡ media.old }
        ensures err { IsErrOf result WorldFault.OutOfMemory → self.new ≡ self.old }
        ensures size { M.size media.new ≡ M.size media.old }
    {
        if make_room(&mut self.journal).is_err() {
            return Err(WorldFault::OutOfMemory);
        }
        let at = match holder(&self.hosts, name, line, media.lines()) {
            Ok(at) => at,
            Err(cause) => return Err(refused(&mut self.journal, name, cause)),
        };
        match self.hosts[at].cache.shift(media, line, what) {
            Ok(()) => Ok(()),
            Err(CacheFault::Failed) => Err(refused(
                &mut self.journal,
                name,
                Refusal::MediaFault(line),
            )),
            Err(CacheFault::OutOfMemory) => Err(WorldFault::OutOfMemory),
        }
    }
}
