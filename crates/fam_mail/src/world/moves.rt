//! Moves that a host's cache makes by itself, as the machine may, at lines of the file.

ghost use Rattle.std.specs.Prelude.{◌≡◌, ◌<◌, IsErrOf, true};
ghost use Rattle.fam_machine.specs.Operations.{machine};
ghost use Rattle.fam_media.specs.Causes.{IsSteady};
ghost use Rattle.fam_media.specs.States.{change};
ghost use Rattle.fam_machine.specs.HostMoves as how;
ghost use Rattle.fam_mail.specs.Calls.{IfMailAnswered, MovesLine, MailWorldFits};
ghost use Rattle.fam_mail.specs.Happens.{IsCountedIn};
ghost use Rattle.fam_cache.specs.OwnMoves.{move_of};

use super::{MailWorld, capacity};
use crate::hosts::holder;
use crate::note::{MailFault, MailRefusal};
use crate::notes::{make_room, refused};
use fam_base::{HostName, LineNo, Mask};
use fam_cache::{CacheFault, OwnMove};
use fam_content::file_line;
use fam_media::Media;

impl MailWorld {
    /// Sends line `line` of the file from a host's cache, where it is dirty, and drops it. `NoHost`, or else `NoLine` where
    /// the file has no such line; `MediaFault` where the media failed, and then the cache is as it was.
    pub fn evict<M: Media>(
        &mut self,
        media: &mut M,
        name: &HostName,
        line: u64,
    ) -> Result<(), MailFault>
        requires fits { MailWorldFits (M.size media.old) self.old }

        ensures answered { IfMailAnswered result (λ answered.
            MovesLine name.now line how.Evict (change M.state media.old media.new) answered self.old self.new) }
        ensures fits { MailWorldFits (M.size media.new) self.new }
        ensures undone { IsErrOf result MailFault.OutOfMemory → media.new ≡ media.old }
        ensures err { IsErrOf result MailFault.OutOfMemory → self.new ≡ self.old }
        ensures steady { IsSteady M.size M.state media.old media.new }
        ensures counted { M.exact ≡ true → IsCountedIn self.old.journal self.new.journal (M.state media.old).faults (M.state media.new).faults }
    {
        self.move_line(media, name, line, OwnMove::Evict)
    }

    /// Sends the masked words of a line of the file from a host's cache, where it is dirty. It stays dirty. Refused as
    /// `evict`.
    pub fn leak<M: Media>(
        &mut self,
        media: &mut M,
        name: &HostName,
        line: u64,
        mask: Mask,
    ) -> Result<(), MailFault>
        requires fits { MailWorldFits (M.size media.old) self.old }

        ensures answered { IfMailAnswered result (λ answered.
            MovesLine name.now line (how.Leak mask.0) (change M.state media.old media.new) answered self.old self.new) }
        ensures fits { MailWorldFits (M.size media.new) self.new }
        ensures undone { IsErrOf result MailFault.OutOfMemory → media.new ≡ media.old }
        ensures err { IsErrOf result MailFault.OutOfMemory → self.new ≡ self.old }
        ensures steady { IsSteady M.size M.state media.old media.new }
        ensures counted { M.exact ≡ true → IsCountedIn self.old.journal self.new.journal (M.state media.old).faults (M.state media.new).faults }
    {
        self.move_line(media, name, line, OwnMove::Leak(mask))
    }

    /// Brings a line of the file into a host's cache where it is absent, and refreshes its masked words where it is clean.
    /// Refused as `evict`.
    pub fn fetch<M: Media>(
        &mut self,
        media: &mut M,
        name: &HostName,
        line: u64,
        mask: Mask,
    ) -> Result<(), MailFault>
        requires fits { MailWorldFits (M.size media.old) self.old }

        ensures answered { IfMailAnswered result (λ answered.
            MovesLine name.now line (how.Fetch mask.0) (change M.state media.old media.new) answered self.old self.new) }
        ensures fits { MailWorldFits (M.size media.new) self.new }
        ensures undone { IsErrOf result MailFault.OutOfMemory → media.new ≡ media.old }
        ensures err { IsErrOf result MailFault.OutOfMemory → self.new ≡ self.old }
        ensures steady { IsSteady M.size M.state media.old media.new }
        ensures counted { M.exact ≡ true → IsCountedIn self.old.journal self.new.journal (M.state media.old).faults (M.state media.new).faults }
    {
        self.move_line(media, name, line, OwnMove::Fetch(mask))
    }

    /// A host's cache makes a move at a line of the file.
    fn move_line<M: Media>(
        &mut self,
        media: &mut M,
        name: &HostName,
        line: u64,
        what: OwnMove,
    ) -> Result<(), MailFault>
        requires fits { MailWorldFits (M.size media.old) self.old }

        ensures answered { IfMailAnswered result (λ answered.
            MovesLine name.now line (move_of what) (change M.state media.old media.new) answered self.old self.new) }
        ensures fits { MailWorldFits (M.size media.new) self.new }
        ensures undone { IsErrOf result MailFault.OutOfMemory → media.new ≡ media.old }
        ensures err { IsErrOf result MailFault.OutOfMemory → self.new ≡ self.old }
        ensures steady { IsSteady M.size M.state media.old media.new }
        ensures counted { M.exact ≡ true → IsCountedIn self.old.journal self.new.journal (M.state media.old).faults (M.state media.new).faults }
    {
        if make_room(&mut self.journal).is_err() {
            return Err(MailFault::OutOfMemory);
        }
        let at = match holder(&self.hosts, name, line, capacity(&self.entry)) {
            Ok(at) => at,
            Err(cause) => return Err(refused(&mut self.journal, name, cause)),
        };
        let place = file_line(&self.entry, line);
        match self.hosts[at].cache.shift(media, place, what) {
            Ok(()) => Ok(()),
            Err(CacheFault::Failed) => Err(refused(
                &mut self.journal,
                name,
                MailRefusal::MediaFault(place),
            )),
            Err(CacheFault::OutOfMemory) => Err(MailFault::OutOfMemory),
        }
    }
}
