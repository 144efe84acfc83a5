//! Calls that do operations of a host's task: one, so many, or all up to its answer.
//!
//! A storm asks for thousands of steps at once, with nothing between them. So `steps` looks for the host once. Its
//! clause is that of so many calls of `step`, one behind another (`StepsSay`), so the rules of a journal have no row of
//! their own for it.

ghost use Rattle.std.specs.Prelude.{◌≡◌, ◌<◌, IsErrOf};
ghost use Rattle.fam_media.specs.States.{change};
ghost use Rattle.fam_journal.specs.Calls.{Finishes, Steps};
ghost use Rattle.fam_journal.specs.CallRecords.{FinishOutOfMemory, FitsMedia, MediaCall, StepCall};
ghost use Rattle.fam_world.specs.Answers.{IfAnswered, IfStepped, IsUntouched};
ghost use Rattle.fam_world.specs.Concluded.{HasConcluded, ReadsOf};
ghost use Rattle.fam_world.specs.Counted.{StepsSay, standing};

use super::World;
use crate::concluding::conclude_of;
use crate::fault::{Moved, WorldFault, or_fault};
use crate::find::running;
use crate::notes::{make_room, refused};
use crate::run::{finish_of, steps_of};
use fam_base::HostName;
use fam_media::Media;

impl World {
    /// Does one operation of a host's task, on the host's cache and the one memory, and notes what comes of it. `NoHost`,
    /// or else `Idle` where it has no task. Where the media fails the task answers so, and is gone.
    ///
    /// On `OutOfMemory` nothing was done, and the step may be tried again.
    pub fn step<M: Media>(&mut self, media: &mut M, name: &HostName) -> Result<Moved, WorldFault>
        requires fits { FitsMedia (M.size media.old) self.old.hosts }

        ensures answered { IfStepped result (λ answered over. StepCall name.now (M.size media.old) answered over
            (change M.state media.old media.new) self.old self.new) }
        ensures untouched { IsUntouched (Steps name.now) (M.size media.old) self.old media.old media.new }
        ensures undone { IsErrOf result WorldFault.OutOfMemory → media.new ≡ media.old }
        ensures err { IsErrOf result WorldFault.OutOfMemory → self.new ≡ self.old }
        ensures size { M.size media.new ≡ M.size media.old }
    {
        self.steps(media, name, 1)
    }

    /// Does so many operations of a host's task, one behind another, as `step` does each, or fewer where it answers. Refused
    /// as `step`.
    ///
    /// On `OutOfMemory` fewer were done, and the task may be gone on with.
    pub fn steps<M: Media>(
        &mut self,
        media: &mut M,
        name: &HostName,
        most: u64,
    ) -> Result<Moved, WorldFault>
        requires some { 0 < most }
        requires fits { FitsMedia (M.size media.old) self.old.hosts }

        ensures says { StepsSay name.now (M.size media.old) most (standing M.state media.old self.old)
            (standing M.state media.new self.new) result }
        ensures untouched { IsUntouched (Steps name.now) (M.size media.old) self.old media.old media.new }
        ensures undone { most ≡ 1 → IsErrOf result WorldFault.OutOfMemory → media.new ≡ media.old }
        ensures size { M.size media.new ≡ M.size media.old }
    {
        if make_room(&mut self.journal).is_err() {
            return Err(WorldFault::OutOfMemory);
        }
        let at = match running(&self.hosts, name) {
            Ok(at) => at,
            Err(cause) => return Err(refused(&mut self.journal, name, cause)),
        };
        or_fault(steps_of(&mut self.hosts[at], &mut self.journal, media, at, most))
    }

    /// Does operations of a host's task up to its answer. Refused as `step`.
    ///
    /// On `OutOfMemory` the operations before were done, and the task, which has not answered, may be gone on with.
    pub fn finish<M: Media>(&mut self, media: &mut M, name: &HostName) -> Result<(), WorldFault>
        requires fits { FitsMedia (M.size media.old) self.old.hosts }

        ensures answered { IfAnswered result (λ answered. MediaCall (Finishes name.now) (M.size media.old) answered
            (change M.state media.old media.new) self.old self.new) }
        ensures untouched { IsUntouched (Finishes name.now) (M.size media.old) self.old media.old media.new }
        ensures want { IsErrOf result WorldFault.OutOfMemory → FinishOutOfMemory name.now (M.size media.old)
            (change M.state media.old media.new) self.old self.new }
        ensures size { M.size media.new ≡ M.size media.old }
    {
        if make_room(&mut self.journal).is_err() {
            return Err(WorldFault::OutOfMemory);
        }
        let at = match running(&self.hosts, name) {
            Ok(at) => at,
            Err(cause) => return Err(refused(&mut self.journal, name, cause)),
        };
        or_fault(finish_of(
            self.alloc,
            &mut self.hosts[at],
            &mut self.journal,
            media,
            at,
        ))
    }

    /// As `finish`, of a task that only reads, behind which of the world its journal alone is looked at: the host's cache
    /// forgets lines that the task won't look at again. So a long file or log takes little memory.
    pub fn conclude<M: Media>(&mut self, media: &mut M, name: &HostName) -> Result<(), WorldFault>
        requires fits { FitsMedia (M.size media.old) self.old.hosts }
        requires reads { ReadsOf name.now self.old self.old }

        // What `finish` ensures of the world is told of one with the same journal.
        ensures concluded { HasConcluded name.now (M.size media.old) (change M.state media.old media.new)
            self.old self.new result }
        ensures untouched { IsUntouched (Finishes name.now) (M.size media.old) self.old media.old media.new }
        ensures size { M.size media.new ≡ M.size media.old }
    {
        if make_room(&mut self.journal).is_err() {
            return Err(WorldFault::OutOfMemory);
        }
        let at = match running(&self.hosts, name) {
            Ok(at) => at,
            Err(cause) => return Err(refused(&mut self.journal, name, cause)),
        };
        or_fault(conclude_of(
            self.alloc,
            &mut self.hosts[at],
            &mut self.journal,
            media,
            at,
        ))
    }
}
