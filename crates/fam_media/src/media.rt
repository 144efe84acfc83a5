//! A media: an image of lines that several hosts share.
//!
//! It takes many lines by one call too, `read_run` and `write_run`, since a call of the system for each line costs more
//! than its bytes. Their contracts are the folds of `read` and `write`, and their bodies are loops where an implementor
//! has no better ones. The media of this crate go line by line, so each line is a call of its own, which may be made to
//! fail.

ghost use Rattle.std.specs.Prelude.{◌≡◌, ℕ, ◌+◌, ◌<◌, ◌≤◌, ⊤, Bool, IfErr, IfOk, List, OnOk, OnErr, false, is_err, length, true};
ghost use Rattle.std.specs.Option.{option_map};
ghost use Rattle.fam_base.specs.Image.{IsNormal, eight, line_at, with_line};
ghost use Rattle.fam_media.specs.Causes.{HasCause};
ghost use Rattle.fam_media.specs.Outside.{IfModelled, IsTorn};
ghost use Rattle.fam_media.specs.Plans.{count_if};
ghost use Rattle.fam_media.specs.Runs.{AreRead, IsRunTorn, RunEnds, read_of, run_written, write_of};
ghost use Rattle.fam_media.specs.States.{MediaState};

use fam_base::{Line, LineNo};

/// A call of the outside failed.
#[derive(Clone, Copy, Debug)]
pub struct Failed;

/// A call for several lines failed at one of them, behind so many that were done.
#[derive(Clone, Copy, Debug)]
pub struct RunFailed {
    pub done: usize,
}

/// The most lines that a media has: those of 1 TiB.
pub const MOST_LINES: u64 = 17_179_869_184;

/// Memory that several hosts share, as lines of eight words.
pub trait Media {
    /// How many lines there are, also where no image is modelled.
    ghost size: { Self → ℕ };

    /// The image, where it is modelled, and how often a call failed.
    ghost state: { Self → MediaState };

    /// What a read of a line does, by whether it fails, where a media says more of it than the clauses below. By default
    /// nothing.
    ghost reads: { Self → ℕ → Bool → Self → Type 0 } = { λ _ _ _ _. ⊤ };

    /// The same of a write of such words.
    ghost writes: { Self → ℕ → List ℕ → Bool → Self → Type 0 } = { λ _ _ _ _ _. ⊤ };

    /// Whether a media tells its calls exactly: the count of faults rises by one at each call that fails, and at no other
    /// one; and a run makes one call for each line, up to the one that fails. By default nothing is said of that.
    ghost exact: { Bool } = { false };

    /// Returns how many lines there are. No call changes this.
    fn lines(&self) -> u64
        ensures count { result ≡ size self.now }
        ensures limit { size self.now ≤ MOST_LINES };

    /// Reads a line. No line changes, also where the read fails.
    fn read(&mut self, line: LineNo) -> Result<Line, Failed>
        requires within { line.0 < size self.old }

        ensures words { IfOk result
            (λ words. IfModelled (state self.old).image (λ lines. eight words ≡ line_at lines line.0)) }
        ensures same { (state self.new).image ≡ (state self.old).image }
        ensures size { size self.new ≡ size self.old }
        ensures cause { HasCause (state self.old).faults (state self.new).faults result }
        ensures call { reads self.old line.0 (is_err result) self.new }
        ensures counted { exact ≡ true → (state self.new).faults ≡ count_if (is_err result) (state self.old).faults };

    /// Writes a line, and no other one. Where the write fails each word of the line is old or new.
    fn write(&mut self, line: LineNo, words: &Line) -> Result<(), Failed>
        requires within { line.0 < size self.old }

        ensures written { OnOk result
            ((state self.new).image ≡ option_map (with_line line.0 words.now) (state self.old).image) }
        ensures torn { OnErr result (IsTorn (state self.old).image (state self.new).image line.0 words.now) }
        ensures size { size self.new ≡ size self.old }
        ensures cause { HasCause (state self.old).faults (state self.new).faults result }
        ensures call { writes self.old line.0 words.now (is_err result) self.new }
        ensures counted { exact ≡ true → (state self.new).faults ≡ count_if (is_err result) (state self.old).faults };

    /// Reads lines one behind another, as `read` does each of them. No line of the media changes. Where it fails at a
    /// line, those before it were read, and what the buffer has from there on is left open.
    fn read_run(&mut self, first: LineNo, lines: &mut [Line]) -> Result<(), RunFailed>
        requires within { first.0 + length lines.old ≤ size self.old }

        ensures words { OnOk result
            (IfModelled (state self.old).image (λ image. AreRead image first.0 lines.new (length lines.old))) }
        ensures count { length lines.new ≡ length lines.old }
        ensures same { (state self.new).image ≡ (state self.old).image }
        ensures before { IfErr result (λ failed. failed.done < length lines.old) }
        ensures err_words { IfErr result
            (λ failed. IfModelled (state self.old).image (λ image. AreRead image first.0 lines.new failed.done)) }
        ensures size { size self.new ≡ size self.old }
        ensures cause { HasCause (state self.old).faults (state self.new).faults result }
        ensures counted { exact ≡ true → (state self.new).faults ≡ count_if (is_err result) (state self.old).faults }
        ensures calls { exact ≡ true → RunEnds (read_of reads first.0) (length lines.old) result self.old self.new }
    {
        // How many lines there are at most.
        let _ = self.lines();
        for k in 0..lines.len() {
            match self.read(LineNo(first.0 + k as u64)) {
                Ok(words) => lines[k] = words,
                Err(_) => return Err(RunFailed { done: k }),
            }
        }
        Ok(())
    }

    /// Writes lines one behind another, as `write` does each of them, and no other one. Where it fails at a line, those
    /// before it are written, each word of it is old or new, and those behind it are as before.
    fn write_run(&mut self, first: LineNo, lines: &[Line]) -> Result<(), RunFailed>
        requires within { first.0 + length lines.now ≤ size self.old }

        ensures written { OnOk result
            ((state self.new).image ≡ run_written first.0 lines.now (length lines.now) (state self.old).image) }
        ensures before { IfErr result (λ failed. failed.done < length lines.now) }
        ensures torn { IfErr result (λ failed.
            IsRunTorn (state self.old).image (state self.new).image first.0 lines.now failed.done) }
        ensures size { size self.new ≡ size self.old }
        ensures cause { HasCause (state self.old).faults (state self.new).faults result }
        ensures counted { exact ≡ true → (state self.new).faults ≡ count_if (is_err result) (state self.old).faults }
        ensures calls { exact ≡ true → RunEnds (write_of writes first.0 lines.now) (length lines.now) result self.old self.new }
    {
        // How many lines there are at most.
        let _ = self.lines();
        for k in 0..lines.len() {
            match self.write(LineNo(first.0 + k as u64), &lines[k]) {
                Ok(()) => {}
                Err(_) => return Err(RunFailed { done: k }),
            }
        }
        Ok(())
    }

    /// Each line of an image that is modelled has eight words.
    ghost normal: { (m : Self) → IsNormal (state m).image };

    /// An image that is modelled has as many lines as the media.
    ghost modelled: { (m : Self) → IfModelled (state m).image (λ lines. length lines ≡ size m) };
}
