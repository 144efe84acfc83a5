//! One operation of the machine's table, on a host's cache and the shared memory.
//!
//! One call does any of those that a task asks for, and its fault names the line, so that a runner looks at no
//! operation itself. A Digest does nothing here, since only the task can say what it thinks.

ghost use Rattle.std.specs.Prelude.{◌≡◌, ◌+◌, ◌<◌, ◌≤◌, IsOk, IfErr, IfOk, OnErr, OnOk, IsErrOf, true};
ghost use Rattle.fam_machine.specs.Cuts.{HasFailed, IsMachine};
ghost use Rattle.fam_machine.specs.Operations.{IsWithin, given, machine, operated};
ghost use Rattle.fam_media.specs.Causes.{IsSteady, Rose};
ghost use Rattle.fam_media.specs.Outside.{IfModelled};
ghost use Rattle.fam_media.specs.Plans.{count_if};
ghost use Rattle.fam_cache.specs.Faults.{IfMediaFault, is_media_fault};
ghost use Rattle.fam_cache.specs.Operations.{AsksNothing, BringsNone, IsAtLine, LeavesCache, LeavesFailed, SendsWithin, word_of};

use crate::cache::HostCache;
use crate::fault::{CacheFault, OperationFault};
use fam_machine::Op;
use fam_media::Media;

impl HostCache {
    /// Does an operation, and gives the word of a load. A Digest does nothing.
    ///
    /// `MediaFault` names the operation's line, and of a Fence the first one that it couldn't send. `OutOfMemory` comes
    /// where an absent line is to be brought and there is no room for it, and then nothing was done.
    #[inline(always)]
    pub fn perform<M: Media>(
        &mut self,
        media: &mut M,
        op: Op,
    ) -> Result<Option<u64>, OperationFault>
        requires within { IsWithin (M.size media.old) op }
        requires asked { SendsWithin op (M.size media.old) self.old.lines }

        // Where the image is modelled, it, the cache and the word are those of the machine.
        ensures operated { OnOk result (IfModelled (M.state media.old).image (λ image.
            IsMachine (operated op (machine image self.old.lines)) (M.state media.new).image self.new.lines)) }
        ensures given { IfOk result (λ word. IfModelled (M.state media.old).image (λ image.
            word ≡ given op (machine image self.old.lines))) }
        ensures failed { IfErr result (λ fault. IfMediaFault fault (λ line. IfModelled (M.state media.old).image (λ image.
            HasFailed op (machine image self.old.lines) line (M.state media.new).image self.new.lines))) }

        // On any media the cache is what the table makes of the operation's line, and the word is that of the copy.
        ensures cache { OnOk result (LeavesCache op (M.state media.old).image self.old.lines self.new.lines) }
        ensures word { IfOk result (λ word. word ≡ word_of op self.new.lines) }
        ensures err { OnErr result (LeavesFailed op self.old.lines self.new.lines) }
        ensures line { IfErr result (λ fault. IfMediaFault fault (λ line. IsAtLine op line self.old.lines)) }
        ensures inside { IfErr result (λ fault. IfMediaFault fault (λ line. line.0 < M.size media.old)) }
        ensures rose { IfErr result (λ fault. IfMediaFault fault (λ line.
            Rose (M.state media.old).faults (M.state media.new).faults)) }

        // An operation that brings no line and sends none asks nothing of memory.
        ensures ok { AsksNothing op self.old.lines → IsOk result }
        ensures same { AsksNothing op self.old.lines → media.new ≡ media.old }

        ensures room { IsErrOf result OperationFault.OutOfMemory → self.old.spare ≡ 0 }
        ensures absent { IsErrOf result OperationFault.OutOfMemory → ¬ (BringsNone op self.old.lines) }
        ensures undone { IsErrOf result OperationFault.OutOfMemory → media.new ≡ media.old }
        ensures unchanged { IsErrOf result OperationFault.OutOfMemory → self.new ≡ self.old }

        ensures steady { IsSteady M.size M.state media.old media.new }
        ensures counted { M.exact ≡ true → (M.state media.new).faults ≡ count_if (is_media_fault result) (M.state media.old).faults }

        // Only a line that was brought takes a place.
        ensures spare { self.old.spare ≤ self.new.spare + 1 }
        ensures held_spare { BringsNone op self.old.lines → self.old.spare ≤ self.new.spare }
        ensures err_spare { OnErr result (self.old.spare ≤ self.new.spare) }
    {
        match op {
            Op::Load(line, word) => match self.load(media, line, word) {
                Ok(word) => Ok(Some(word)),
                Err(CacheFault::Failed) => Err(OperationFault::MediaFault(line)),
                Err(CacheFault::OutOfMemory) => Err(OperationFault::OutOfMemory),
            },
            Op::Store(line, word, value) => match self.store(media, line, word, value) {
                Ok(()) => Ok(None),
                Err(CacheFault::Failed) => Err(OperationFault::MediaFault(line)),
                Err(CacheFault::OutOfMemory) => Err(OperationFault::OutOfMemory),
            },
            Op::WriteBack(line) => {
                self.write_back(line);
                Ok(None)
            }
            Op::Fence => match self.fence(media) {
                Ok(()) => Ok(None),
                Err(fault) => Err(OperationFault::MediaFault(fault.0)),
            },
            Op::Invalidate(line) => match self.invalidate(media, line) {
                Ok(()) => Ok(None),
                Err(_) => Err(OperationFault::MediaFault(line)),
            },
            Op::Digest => Ok(None),
        }
    }
}
