//! The lines of a content, which a task writes or compares with.

ghost use Rattle.std.specs.Prelude.{◌≡◌, ◌+◌, ◌*◌, ◌<◌, ℕ, length};
ghost use Rattle.fam_content.specs.Stream.{line_in};
ghost use Rattle.fam_rules.specs.Content.{HoldsBytes, content_line};
ghost use Rattle.fam_tasks.specs.Contents.{next_of};

use fam_base::{Content, Line};
use fam_content::{ContentStream, holds_bytes};
use std::marker::Model;

/// The lines of a content from the front: how many were taken, and the last of them.
#[derive(Drop)]
pub(crate) struct Contents {
    content: Content,
    stream: ContentStream,
    taken: u64,
    line: Line,
}

impl Model for Contents {
    ghost use Rattle.fam_tasks.specs.Contents.{ContentsState};

    ghost Value = { ContentsState };

    ghost use Rattle.fam_tasks.specs.ContentsInvariant.{IsContents};

    ghost view = { λ c. record { content = c.content; taken = c.taken; line = c.line } };

    ghost invariant = { IsContents };
}

impl Contents {
    /// Before the first line of a content.
    pub(crate) fn new(content: Content) -> Contents
        ensures content { result.content ≡ content }
        ensures taken { result.taken ≡ 0 }
    {
        holds_bytes(&content);
        let stream = ContentStream::new(&content);
        Contents {
            content,
            stream,
            taken: 0,
            line: [0; 8],
        }
    }

    /// Takes the next line of a file of `size` bytes. One must be left.
    pub(crate) fn take(&mut self, size: u64)
        requires { 64 * self.old.taken < size }
        ensures new { self.new ≡ next_of self.old size }
        ensures bytes { HoldsBytes self.old.content }
    {
        self.line = self.stream.line(&self.content, size);
        self.taken += 1;
    }

    /// Gives the line that was taken last and those behind it, as many as `lines` has, which are taken too. Which of them is
    /// the last isn't remembered.
    pub(crate) fn hand_out(&mut self, size: u64, lines: &mut [Line])
        requires some { 0 < length lines.old }
        requires left { 64 * (self.old.taken + length lines.old) < size + 128 }
        ensures first { line_in lines.new 0 ≡ self.old.line }
        ensures others { (k : ℕ) → k + 1 < length lines.old
            → line_in lines.new (k + 1) ≡ content_line self.old.content size (self.old.taken + k) }
        ensures content { self.new.content ≡ self.old.content }
        ensures taken { self.new.taken + 1 ≡ self.old.taken + length lines.old }
    {
        lines[0] = self.line;
        let others = &mut lines[1..];
        self.taken += others.len() as u64;
        self.stream.lines(&self.content, size, others);
    }

    /// Takes the next lines of a file of `size` bytes, as many as `lines` has, and gives them. As many must be left. Which of
    /// them is the last isn't remembered.
    pub(crate) fn take_lines(&mut self, size: u64, lines: &mut [Line])
        requires { 64 * (self.old.taken + length lines.old) < size + 64 }
        ensures lines { (k : ℕ) → k < length lines.old
            → line_in lines.new k ≡ content_line self.old.content size (self.old.taken + k) }
        ensures content { self.new.content ≡ self.old.content }
        ensures taken { self.new.taken ≡ self.old.taken + length lines.old }
        ensures bytes { HoldsBytes self.old.content }
    {
        self.stream.lines(&self.content, size, lines);
        self.taken += lines.len() as u64;
    }

    /// The line that was taken last.
    pub(crate) fn line(&self) -> &Line
        ensures { result.now ≡ self.now.line }
    {
        &self.line
    }
}
