//! A media in memory, of which chosen calls fail.

ghost use Rattle.std.specs.Prelude.{◌≡◌, ◌+◌, ◌<◌, ◌≤◌, ◌∷◌, Some, IfErr, IfOk, OnOk, OnErr, OnSome, is_err, is_some, length, map, true};
ghost use Rattle.std.specs.Option.{option_map};
ghost use Rattle.fam_base.specs.Image.{eight, line_at, with_line, with_masked};
ghost use Rattle.fam_base.proofs.ImageLemmas.{normal-map_eight};
ghost use Rattle.fam_media.specs.Modelled.{modelled_lines};
ghost use Rattle.fam_media.specs.Causes.{HasCause, Rose};
ghost use Rattle.fam_media.specs.Outside.{IfModelled, IsTorn};
ghost use Rattle.fam_media.specs.MemoryMedia.{IsRead, IsWritten, after_call, after_write, blank, fresh, next_mask, modelled_image};
ghost use Rattle.fam_media.specs.Plans.{count_if};
ghost use Rattle.fam_media.specs.Runs.{AreRead, IsRunTorn, RunEnds, read_of, run_written, write_of};

use crate::media::{Failed, MOST_LINES, Media, RunFailed};
use crate::plan::find_planned;
use fam_base::{Line, LineNo, Mask, OutOfMemory, masked_line};
use std::alloc::Global;
use std::marker::Model;

/// An image in memory, with calls that are to fail. Calls of `read` and `write` are counted together,
/// from 0.
#[derive(Drop)]
pub struct MemMedia {
    lines: Vec<Line>,
    calls: u64,
    plan: Vec<(u64, Mask)>,
    faults: u64,
}

impl Model for MemMedia {
    ghost use Rattle.std.specs.Prelude.{◌≤◌, length, map};
    ghost use Rattle.fam_base.specs.Image.{eight};
    ghost use Rattle.fam_media.specs.declared.media.TheConstants.{MOST_LINES};
    ghost use Rattle.fam_media.specs.MemoryMedia.{MemMediaState};

    ghost Value = { MemMediaState };

    ghost view = { λ m. record {
      image = map eight m.lines.items;
      calls = m.calls;
      plan = m.plan.items;
      faults = m.faults;
    } };

    ghost invariant = { λ m. length m.lines.items ≤ MOST_LINES };
}

/// All words zero.
fn zero_lines(alloc: Global, lines: u64) -> Result<Vec<Line>, OutOfMemory>
    ensures { IfOk result (λ v. v.items ≡ blank lines) }
{
    match vec![in alloc; [0; 8]; lines as usize] {
        Ok(v) => Ok(v),
        Err(_) => Err(OutOfMemory),
    }
}

/// Writes a line.
fn put_line(lines: &mut Vec<Line>, at: u64, words: &Line)
    requires { at < length lines.old.items }
    ensures image { map eight lines.new.items ≡ with_line at words.now (map eight lines.old.items) }
    ensures len { length lines.new.items ≡ length lines.old.items }
{
    lines[at as usize] = *words;
}

/// Writes the words of a line that the mask names.
fn put_words(lines: &mut Vec<Line>, at: u64, mask: Mask, words: &Line)
    requires { at < length lines.old.items }
    ensures image { map eight lines.new.items
        ≡ with_masked at words.now mask.0 (map eight lines.old.items) }
    ensures len { length lines.new.items ≡ length lines.old.items }
{
    let torn = masked_line(mask, words, &lines[at as usize]);
    lines[at as usize] = torn;
}

impl MemMedia {
    /// A media of so many lines, all words zero, of which no call is to fail.
    pub fn new(alloc: Global, lines: u64) -> Result<MemMedia, OutOfMemory>
        requires limit { lines ≤ MOST_LINES }
        ensures value { IfOk result
            (λ m. m ≡ fresh lines) }
    {
        Ok(MemMedia {
            lines: zero_lines(alloc, lines)?,
            calls: 0,
            plan: Vec::new(alloc),
            faults: 0,
        })
    }

    /// The call with that number will fail, and where it is a write let the words of the mask through.
    pub fn fail(&mut self, call: u64, mask: Mask) -> Result<(), OutOfMemory>
        ensures planned { OnOk result
            (self.new ≡ record self.old { plan = (call, mask) ∷ self.old.plan }) }
        ensures err { OnErr result (self.new ≡ self.old) }
    {
        match self.plan.insert(0, (call, mask)) {
            Ok(()) => Ok(()),
            Err(_) => Err(OutOfMemory),
        }
    }

    /// The line as it stands. This is no call that is counted.
    pub fn line(&self, line: LineNo) -> Line
        requires within { line.0 < length self.now.image }
        ensures value { eight result ≡ line_at self.now.image line.0 }
    {
        self.lines[line.0 as usize]
    }

    /// How many calls there were: the number of the next one.
    pub fn calls(&self) -> u64
        ensures count { result ≡ self.now.calls }
    {
        self.calls
    }

    /// Counts a call, and tells the mask where it is to fail.
    fn next_call(&mut self) -> Option<Mask>
        ensures mask { result ≡ next_mask self.old }
        ensures after { self.new ≡ after_call self.old }
        ensures later { self.old.faults ≤ self.new.faults }
        ensures rose { OnSome result (Rose self.old.faults self.new.faults) }
    {
        let mask = find_planned(&self.plan, self.calls);
        self.calls = self.calls.saturating_add(1);
        if mask.is_some() {
            self.faults = self.faults.saturating_add(1);
        }
        mask
    }
}

impl Media for MemMedia {
    ghost size = { λ m. length m.image };

    ghost state = { λ m. record { image = modelled_image m; faults = m.faults } };

    ghost reads = { λ m line failed new. IsRead m line failed new };

    ghost writes = { λ m line words failed new. IsWritten m line words failed new };

    ghost exact = { true };

    fn lines(&self) -> u64 {
        self.lines.len() as u64
    }

    fn read(&mut self, line: LineNo) -> Result<Line, Failed>
        requires within { line.0 < length self.old.image }

        ensures words { IfOk result
            (λ words. IfModelled (modelled_image self.old) (λ lines. eight words ≡ line_at lines line.0)) }
        ensures same { modelled_image self.new ≡ modelled_image self.old }
        ensures size { length self.new.image ≡ length self.old.image }
        ensures cause { HasCause (self.old.faults) (self.new.faults) result }

        // It fails exactly where that was planned.
        ensures fails { is_err result ≡ is_some (next_mask self.old) }
        ensures after { self.new ≡ after_call self.old }
    {
        match self.next_call() {
            Some(_) => Err(Failed),
            None => Ok(self.line(line)),
        }
    }

    fn write(&mut self, line: LineNo, words: &Line) -> Result<(), Failed>
        requires within { line.0 < length self.old.image }

        ensures written { OnOk result
            (modelled_image self.new ≡ option_map (with_line line.0 words.now) (modelled_image self.old)) }
        ensures torn { OnErr result
            (IsTorn (modelled_image self.old) (modelled_image self.new) line.0 words.now) }
        ensures size { length self.new.image ≡ length self.old.image }
        ensures cause { HasCause (self.old.faults) (self.new.faults) result }

        // It fails exactly where that was planned, and then lets the words of the mask through.
        ensures fails { is_err result ≡ is_some (next_mask self.old) }
        ensures after { self.new ≡ after_write line.0 words.now self.old }
    {
        match self.next_call() {
            None => {
                put_line(&mut self.lines, line.0, words);
                Ok(())
            }
            Some(mask) => {
                put_words(&mut self.lines, line.0, mask, words);
                Err(Failed)
            }
        }
    }

    fn read_run(&mut self, first: LineNo, lines: &mut [Line]) -> Result<(), RunFailed>
        requires within { first.0 + length lines.old ≤ length self.old.image }

        ensures words { OnOk result
            (IfModelled (modelled_image self.old) (λ image. AreRead image first.0 lines.new (length lines.old))) }
        ensures count { length lines.new ≡ length lines.old }
        ensures same { modelled_image self.new ≡ modelled_image self.old }
        ensures before { IfErr result (λ failed. failed.done < length lines.old) }
        ensures err_words { IfErr result
            (λ failed. IfModelled (modelled_image self.old) (λ image. AreRead image first.0 lines.new failed.done)) }
        ensures size { length self.new.image ≡ length self.old.image }
        ensures cause { HasCause self.old.faults self.new.faults result }
        ensures counted { self.new.faults ≡ count_if (is_err result) self.old.faults }

        // Each line is read by one call. Where one fails, so many were done before it, and none is made behind it.
        ensures calls { RunEnds (read_of IsRead first.0) (length lines.old) result self.old self.new }
    {
        // How many lines there are at most.
        let _ = self.lines();
        for k in 0..lines.len() {
            match self.read(LineNo(first.0 + k as u64)) {
                Ok(words) => lines[k] = words,
                Err(_) => return Err(RunFailed { done: k }),
            }
        }
        Ok(())
    }

    fn write_run(&mut self, first: LineNo, lines: &[Line]) -> Result<(), RunFailed>
        requires within { first.0 + length lines.now ≤ length self.old.image }

        ensures written { OnOk result
            (modelled_image self.new ≡ run_written first.0 lines.now (length lines.now) (modelled_image self.old)) }
        ensures before { IfErr result (λ failed. failed.done < length lines.now) }
        ensures torn { IfErr result (λ failed.
            IsRunTorn (modelled_image self.old) (modelled_image self.new) first.0 lines.now failed.done) }
        ensures size { length self.new.image ≡ length self.old.image }
        ensures cause { HasCause self.old.faults self.new.faults result }
        ensures counted { self.new.faults ≡ count_if (is_err result) self.old.faults }

        // Each line is written by one call. Where one fails, so many were done before it, and none is made behind it.
        ensures calls { RunEnds (write_of IsWritten first.0 lines.now) (length lines.now) result self.old self.new }
    {
        // How many lines there are at most.
        let _ = self.lines();
        for k in 0..lines.len() {
            match self.write(LineNo(first.0 + k as u64), &lines[k]) {
                Ok(()) => {}
                Err(_) => return Err(RunFailed { done: k }),
            }
        }
        Ok(())
    }

    ghost normal = { λ m. normal-map_eight m.image };

    ghost modelled = { λ m. modelled_lines m.image };
}
