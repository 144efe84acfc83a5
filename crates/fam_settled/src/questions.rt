//! Which answers fit a question.

ghost use Rattle.std.specs.Prelude.{◌≡◌, ◌↔◌, ◌≤◌, IfOk, IsTrue, length, take};
ghost use Rattle.fam_base.specs.declared.cmd.Cmd.TheVariants as cmd;
ghost use Rattle.fam_history.specs.declared.answer.ToldAnswer.TheVariants as told;
ghost use Rattle.fam_rules.specs.Asks.{file_at};
ghost use Rattle.fam_judge.specs.Untold.{untold_cmd};
ghost use Rattle.fam_settled.specs.Fits.{FileTold, IsPlayed, PlainTold, ReadTold, VerifiedTold, content_in};
ghost use Rattle.fam_settled.specs.Settled.{settled_and_pending};
ghost use Rattle.fam_settled.specs.Told.{IsToldFit, bare_cmd};

use crate::against::Against;
use crate::checks::listing_count;
use crate::listed::lists;
use crate::log::Log;
use crate::verified::{against_of, read_fits, verified_fits};
use fam_base::{Cmd, Entry, Kind, OutOfMemory, Path};
use fam_history::{ToldAnswer, ToldCommand};
use std::alloc::Global;

/// Whether nothing stands at the path, by the first `m` entries.
fn is_not_found(m: u64, answer: &ToldAnswer) -> bool
    ensures { IsTrue result ↔ (answer.now ≡ told.NotFound m) }
{
    match answer {
        ToldAnswer::NotFound(n) => *n == m,
        _ => false,
    }
}

/// Whether a directory does.
fn is_directory(m: u64, answer: &ToldAnswer) -> bool
    ensures { IsTrue result ↔ (answer.now ≡ told.IsDirectory m) }
{
    match answer {
        ToldAnswer::IsDirectory(n) => *n == m,
        _ => false,
    }
}

/// Whether the first `m` entries are mounted.
fn is_mounted(m: u64, answer: &ToldAnswer) -> bool
    ensures { IsTrue result ↔ (answer.now ≡ told.Mounted m) }
{
    match answer {
        ToldAnswer::Mounted(n) => *n == m,
        _ => false,
    }
}

/// Whether the first `m` entries are listed.
fn is_played(m: u64, answer: &ToldAnswer) -> bool
    ensures { IsTrue result ↔ (answer.now ≡ told.Played m) }
{
    match answer {
        ToldAnswer::Played(n) => *n == m,
        _ => false,
    }
}

/// Whether a command lists.
fn is_logplay(told: &ToldCommand) -> bool
    ensures { IsTrue result ↔ (bare_cmd told.now ≡ cmd.Logplay) }
{
    match told {
        ToldCommand::Plain(Cmd::Logplay) => true,
        _ => false,
    }
}

impl Log {
    /// Whether these may be the lines of a listing of the first `m` entries.
    fn played_fits(
        &self,
        alloc: Global,
        m: u64,
        answer: &ToldAnswer,
        listed: &[Entry],
    ) -> Result<bool, OutOfMemory>
        requires { m ≤ length (settled_and_pending self.now) }
        ensures { IfOk result (λ b. IsTrue b ↔ IsPlayed m (take m (settled_and_pending self.now)) answer.now listed.now) }
    {
        if !is_played(m, answer) {
            return Ok(false);
        }
        let plan = self.first(alloc, m)?;
        Ok(lists(plan.tree(), listed))
    }

    /// Whether a verify of the first `m` entries may be answered so.
    fn verify_fits(&self, m: u64, path: &Path, against: Against, answer: &ToldAnswer) -> bool
        requires { m ≤ length (settled_and_pending self.now) }
        ensures { IsTrue result ↔ FileTold m (file_at (take m (settled_and_pending self.now)) path.now) answer.now
            (λ bytes. VerifiedTold m bytes (content_in against) answer.now) }
    {
        let Some((entry, bytes)) = self.found_among(m, path) else {
            return is_not_found(m, answer);
        };
        match entry.kind {
            Kind::Directory => is_directory(m, answer),
            Kind::File => verified_fits(m, bytes, entry.size, against, answer),
        }
    }

    /// Whether a read may.
    fn read_fits(&self, m: u64, path: &Path, offset: u64, count: u64, answer: &ToldAnswer) -> bool
        requires { m ≤ length (settled_and_pending self.now) }
        ensures { IsTrue result ↔ FileTold m (file_at (take m (settled_and_pending self.now)) path.now) answer.now
            (λ bytes. ReadTold m bytes offset count answer.now) }
    {
        let Some((entry, bytes)) = self.found_among(m, path) else {
            return is_not_found(m, answer);
        };
        match entry.kind {
            Kind::Directory => is_directory(m, answer),
            Kind::File => read_fits(m, bytes, entry.size, offset, count, answer),
        }
    }

    /// Whether a question that takes nothing from a source may be answered so in one line.
    fn plain_fits(&self, m: u64, asked: &Cmd, answer: &ToldAnswer) -> bool
        requires { m ≤ length (settled_and_pending self.now) }
        ensures { IsTrue result ↔ PlainTold m (take m (settled_and_pending self.now)) (untold_cmd asked.now) answer.now }
    {
        match asked {
            Cmd::Mount => is_mounted(m, answer),
            Cmd::Verify { path, against } => {
                self.verify_fits(m, path, against_of(against), answer)
            }
            Cmd::Read {
                path,
                offset,
                count,
            } => self.read_fits(m, path, *offset, *count, answer),
            _ => false,
        }
    }

    /// Whether a question may be answered so in one line.
    fn told_fits(&self, m: u64, asked: &ToldCommand, answer: &ToldAnswer) -> bool
        requires { m ≤ length (settled_and_pending self.now) }
        ensures { IsTrue result ↔ PlainTold m (take m (settled_and_pending self.now)) (bare_cmd asked.now) answer.now }
    {
        match asked {
            ToldCommand::Plain(asked) => self.plain_fits(m, asked, answer),
            ToldCommand::VerifySource { path, count } => {
                self.verify_fits(m, path, Against::Untold(*count), answer)
            }
            _ => false,
        }
    }

    /// Whether a question about the first `m` entries may be answered so: with this first line, and these entries in the lines
    /// behind it. Only a listing and a check take memory.
    pub fn question_fits(
        &self,
        alloc: Global,
        m: u64,
        asked: &ToldCommand,
        answer: &ToldAnswer,
        listed: &[Entry],
    ) -> Result<bool, OutOfMemory>
        requires few { m ≤ length (settled_and_pending self.now) }
        ensures { IfOk result (λ b. IsTrue b ↔ IsToldFit (take m (settled_and_pending self.now)) (bare_cmd asked.now) answer.now listed.now) }
    {
        if is_logplay(asked) {
            return self.played_fits(alloc, m, answer, listed);
        }
        if !listed.is_empty() {
            return Ok(false);
        }
        match listing_count(asked) {
            Some(count) => self.check_fits(alloc, m, count, answer),
            None => Ok(self.told_fits(m, asked, answer)),
        }
    }
}
