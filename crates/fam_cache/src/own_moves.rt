//! The moves that a cache makes by itself, as the machine may at any time.

ghost use Rattle.std.specs.Prelude.{◌≡◌, ◌⊎◌, ◌<◌, ℕ, IsErrOf, OnErr, OnOk, true};
ghost use Rattle.fam_machine.specs.Caches.{cell_at};
ghost use Rattle.fam_machine.specs.Cuts.{IsMachine};
ghost use Rattle.fam_machine.specs.HostMoves.{failed_move, moved};
ghost use Rattle.fam_machine.specs.OneLine.{IsHeld};
ghost use Rattle.fam_machine.specs.Operations.{machine};
ghost use Rattle.fam_media.specs.Causes.{IsSteady, Rose};
ghost use Rattle.fam_media.specs.Outside.{IfModelled};
ghost use Rattle.fam_media.specs.Plans.{count_if};
ghost use Rattle.fam_cache.specs.Effects.{FailsTo};
ghost use Rattle.fam_cache.specs.Faults.{is_failed};
ghost use Rattle.fam_cache.specs.OwnMoves.{move_of, send_fault};

use crate::cache::HostCache;
use crate::fault::CacheFault;
use fam_base::{LineNo, Mask};
use fam_media::{Failed, Media};

/// What the machine may do to a line of a cache at any time.
#[derive(Clone, Copy)]
pub enum OwnMove {
    /// A dirty line is sent, and the line is dropped.
    Evict,
    /// Masked words of a dirty line are sent, and it stays dirty.
    Leak(Mask),
    /// An absent line is brought, or masked words of a clean one are refreshed.
    Fetch(Mask),
}

/// That a send failed, as a fault of a cache.
fn sends(sent: Result<(), Failed>) -> Result<(), CacheFault>
    ensures { result ≡ send_fault sent }
{
    match sent {
        Ok(()) => Ok(()),
        Err(_) => Err(CacheFault::Failed),
    }
}

impl HostCache {
    /// Makes a move of the machine's at a line. `Failed` comes where the media failed, and then the cache is as it was.
    /// `OutOfMemory` comes where an absent line is to be brought and there is no room for it, and then nothing was done.
    pub fn shift<M: Media>(
        &mut self,
        media: &mut M,
        line: LineNo,
        what: OwnMove,
    ) -> Result<(), CacheFault>
        requires within { line.0 < M.size media.old }

        ensures moved { OnOk result (IfModelled (M.state media.old).image (λ image.
            IsMachine (moved (move_of what) line.0 (machine image self.old.lines)) (M.state media.new).image self.new.lines)) }
        ensures failed { IsErrOf result CacheFault.Failed → IfModelled (M.state media.old).image (λ image. FailsTo line.0
            (λ through memory. failed_move (move_of what) through memory (cell_at self.old.lines line.0))
            image (M.state media.new).image) }
        ensures held { (l : ℕ) → IsHeld (cell_at self.new.lines l) → (l ≡ line.0) ⊎ IsHeld (cell_at self.old.lines l) }
        ensures err { OnErr result (self.new.lines ≡ self.old.lines) }
        ensures rose { IsErrOf result CacheFault.Failed → Rose (M.state media.old).faults (M.state media.new).faults }
        ensures undone { IsErrOf result CacheFault.OutOfMemory → media.new ≡ media.old }
        ensures unchanged { IsErrOf result CacheFault.OutOfMemory → self.new ≡ self.old }
        ensures steady { IsSteady M.size M.state media.old media.new }
        ensures counted { M.exact ≡ true → (M.state media.new).faults ≡ count_if (is_failed result) (M.state media.old).faults }
    {
        match what {
            OwnMove::Evict => sends(self.evict(media, line)),
            OwnMove::Leak(mask) => sends(self.leak(media, line, mask)),
            OwnMove::Fetch(mask) => self.fetch(media, line, mask),
        }
    }
}
