//! A media of which chosen lines fail.

ghost use Rattle.std.specs.Prelude.{◌≡◌, ◌+◌, ◌<◌, ◌≤◌, ◌∷◌, true, false, Err, IfErr, IfOk, OnOk, OnErr, is_err, length};
ghost use Rattle.std.specs.Option.{option_map};
ghost use Rattle.fam_base.specs.Image.{eight, line_at, with_line};
ghost use Rattle.fam_media.specs.Causes.{HasCause};
ghost use Rattle.fam_media.specs.Frail.{after_result, frail_reads, frail_writes, healed, is_poisoned, unharmed};
ghost use Rattle.fam_media.specs.Outside.{IfModelled, IsTorn};
ghost use Rattle.fam_media.specs.Plans.{count_if};
ghost use Rattle.fam_media.specs.Runs.{AreRead, IsRunTorn, RunEnds, read_of, run_written, write_of};

use crate::media::{Failed, Media, RunFailed};
use fam_base::{Line, LineNo, OutOfMemory};
use std::alloc::Global;
use std::marker::Model;

/// A media whose lines can be poisoned. Each read and write of a poisoned line fails, and changes no line; any other call
/// is that of the media within. One count rises at each failure, of either kind.
#[derive(Drop)]
pub struct Frail<M: Media> {
    media: M,
    poisoned: Vec<u64>,
    faults: u64,
}

impl<M: Media> Model for Frail<M> {
    ghost use Rattle.fam_media.specs.Frail.{FrailState};

    ghost Value = { FrailState M };

    ghost view = { λ f. record { media = f.media; poisoned = f.poisoned.items; faults = f.faults } };
}

/// Takes a line out of a list, wherever it stands there.
fn heal_line(lines: &mut Vec<u64>, line: u64)
    ensures { lines.new.items ≡ healed line lines.old.items }
{
    lines.retain(|l| *l != line);
}

impl<M: Media> Frail<M> {
    /// A media of which no line is poisoned. Its count of failures is 0, whatever that of the media within.
    pub fn new(alloc: Global, media: M) -> Frail<M>
        ensures { result ≡ unharmed media }
    {
        Frail {
            media,
            poisoned: Vec::new(alloc),
            faults: 0,
        }
    }

    /// Poisons a line: each access to it fails until it is healed.
    pub fn poison(&mut self, line: LineNo) -> Result<(), OutOfMemory>
        ensures poisoned { OnOk result (self.new ≡ record self.old { poisoned = line.0 ∷ self.old.poisoned }) }
        ensures err { OnErr result (self.new ≡ self.old) }
    {
        match self.poisoned.insert(0, line.0) {
            Ok(()) => Ok(()),
            Err(_) => Err(OutOfMemory),
        }
    }

    /// Heals a line: accesses to it are those of the media within again. Other lines stay as they are.
    pub fn heal(&mut self, line: LineNo)
        ensures { self.new ≡ record self.old { poisoned = healed line.0 self.old.poisoned } }
    {
        heal_line(&mut self.poisoned, line.0);
    }

    /// The media within.
    pub fn media(&self) -> &M
        ensures { result.now ≡ self.now.media }
    {
        &self.media
    }

    /// The media within, which fails at no line more.
    pub fn into_media(self) -> M
        ensures { result ≡ self.media }
    {
        let Frail {
            media,
            poisoned: _,
            faults: _,
        } = self;
        media
    }

    /// Whether a line is poisoned.
    pub fn is_poisoned(&self, line: LineNo) -> bool
        ensures { result ≡ is_poisoned self.now line.0 }
    {
        self.poisoned.contains(&line.0)
    }

    /// What a call gave, and a failure is counted.
    fn counted<T>(&mut self, given: Result<T, Failed>) -> Result<T, Failed>
        ensures same { result ≡ given }
        ensures after { self.new ≡ after_result self.old self.old.media given }
        ensures cause { HasCause self.old.faults self.new.faults result }
    {
        if given.is_err() {
            self.faults = self.faults.saturating_add(1);
        }
        given
    }
}

impl<M: Media> Media for Frail<M> {
    ghost size = { λ f. M.size f.media };

    ghost state = { λ f. record { image = (M.state f.media).image; faults = f.faults } };

    ghost reads = { λ f line failed new. frail_reads M.reads f line failed new };

    ghost writes = { λ f line words failed new. frail_writes M.writes f line words failed new };

    ghost exact = { true };

    fn lines(&self) -> u64 {
        self.media.lines()
    }

    fn read(&mut self, line: LineNo) -> Result<Line, Failed>
        requires within { line.0 < M.size self.old.media }

        ensures words { IfOk result
            (λ words. IfModelled (M.state self.old.media).image (λ lines. eight words ≡ line_at lines line.0)) }
        ensures same { (M.state self.new.media).image ≡ (M.state self.old.media).image }
        ensures size { M.size self.new.media ≡ M.size self.old.media }
        ensures cause { HasCause self.old.faults self.new.faults result }

        // A poisoned line fails, and the media within isn't asked. Which lines are poisoned stays.
        ensures poisoned { is_poisoned self.old line.0 ≡ true → (result ≡ Err record {}) × (self.new.media ≡ self.old.media) }
        // Any other line fails only where the media within does.
        ensures inner { is_poisoned self.old line.0 ≡ false →
            HasCause (M.state self.old.media).faults (M.state self.new.media).faults result }
        // It is the one call of the media within.
        ensures call { frail_reads M.reads self.old line.0 (is_err result) self.new }
        ensures stays { self.new.poisoned ≡ self.old.poisoned }
        ensures count { self.new.faults ≡ count_if (is_err result) self.old.faults }
    {
        if self.is_poisoned(line) {
            return self.counted(Err(Failed));
        }
        let given = self.media.read(line);
        self.counted(given)
    }

    fn write(&mut self, line: LineNo, words: &Line) -> Result<(), Failed>
        requires within { line.0 < M.size self.old.media }

        ensures written { OnOk result ((M.state self.new.media).image
            ≡ option_map (with_line line.0 words.now) (M.state self.old.media).image) }
        ensures torn { OnErr result
            (IsTorn (M.state self.old.media).image (M.state self.new.media).image line.0 words.now) }
        ensures size { M.size self.new.media ≡ M.size self.old.media }
        ensures cause { HasCause self.old.faults self.new.faults result }

        // A poisoned line fails, and the media within isn't asked. Which lines are poisoned stays.
        ensures poisoned { is_poisoned self.old line.0 ≡ true → (result ≡ Err record {}) × (self.new.media ≡ self.old.media) }
        // Any other line fails only where the media within does.
        ensures inner { is_poisoned self.old line.0 ≡ false →
            HasCause (M.state self.old.media).faults (M.state self.new.media).faults result }
        // It is the one call of the media within.
        ensures call { frail_writes M.writes self.old line.0 words.now (is_err result) self.new }
        ensures stays { self.new.poisoned ≡ self.old.poisoned }
        ensures count { self.new.faults ≡ count_if (is_err result) self.old.faults }
    {
        if self.is_poisoned(line) {
            return self.counted(Err(Failed));
        }
        let given = self.media.write(line, words);
        self.counted(given)
    }

    fn read_run(&mut self, first: LineNo, lines: &mut [Line]) -> Result<(), RunFailed>
        requires within { first.0 + length lines.old ≤ M.size self.old.media }

        ensures words { OnOk result
            (IfModelled (M.state self.old.media).image (λ image. AreRead image first.0 lines.new (length lines.old))) }
        ensures count { length lines.new ≡ length lines.old }
        ensures same { (M.state self.new.media).image ≡ (M.state self.old.media).image }
        ensures before { IfErr result (λ failed. failed.done < length lines.old) }
        ensures err_words { IfErr result
            (λ failed. IfModelled (M.state self.old.media).image (λ image. AreRead image first.0 lines.new failed.done)) }
        ensures size { M.size self.new.media ≡ M.size self.old.media }
        ensures cause { HasCause self.old.faults self.new.faults result }
        ensures counted { self.new.faults ≡ count_if (is_err result) self.old.faults }

        // Each line is read by one call. Where one fails, so many were done before it, and none is made behind it.
        ensures calls { RunEnds (read_of (frail_reads M.reads) first.0) (length lines.old) result self.old self.new }
    {
        // How many lines there are at most.
        let _ = self.lines();
        for k in 0..lines.len() {
            match self.read(LineNo(first.0 + k as u64)) {
                Ok(words) => lines[k] = words,
                Err(_) => return Err(RunFailed { done: k }),
            }
        }
        Ok(())
    }

    fn write_run(&mut self, first: LineNo, lines: &[Line]) -> Result<(), RunFailed>
        requires within { first.0 + length lines.now ≤ M.size self.old.media }

        ensures written { OnOk result ((M.state self.new.media).image
            ≡ run_written first.0 lines.now (length lines.now) (M.state self.old.media).image) }
        ensures before { IfErr result (λ failed. failed.done < length lines.now) }
        ensures torn { IfErr result (λ failed.
            IsRunTorn (M.state self.old.media).image (M.state self.new.media).image first.0 lines.now failed.done) }
        ensures size { M.size self.new.media ≡ M.size self.old.media }
        ensures cause { HasCause self.old.faults self.new.faults result }
        ensures counted { self.new.faults ≡ count_if (is_err result) self.old.faults }

        // Each line is written by one call. Where one fails, so many were done before it, and none is made behind it.
        ensures calls { RunEnds (write_of (frail_writes M.writes) first.0 lines.now) (length lines.now) result self.old self.new }
    {
        // How many lines there are at most.
        let _ = self.lines();
        for k in 0..lines.len() {
            match self.write(LineNo(first.0 + k as u64), &lines[k]) {
                Ok(()) => {}
                Err(_) => return Err(RunFailed { done: k }),
            }
        }
        Ok(())
    }

    ghost normal = { λ f. M.normal f.media };

    ghost modelled = { λ f. M.modelled f.media };
}
