//! The lines of a content, one after the other.

ghost use Rattle.std.specs.Prelude.{◌≡◌, ◌+◌, ◌*◌, ◌/◌, ◌%◌, ◌^◌, ◌<◌, ℕ, length, slice_index};
ghost use Rattle.fam_rules.specs.Content.{stream_state, stream_word, content_byte, content_line, byte_in};
ghost use Rattle.fam_content.specs.Stream.{generator_of, line_in, IsLine, StreamStandsFor, HasLineLeft, HasLinesLeft};

use crate::given::given_line;
use crate::prefix::first_bytes;
use fam_base::{Content, Line};
use rand_core::SeedableRng;
use rand_core::utils::NextWord;
use rand_xoshiro::Xoshiro256PlusPlus;

/// Gives the lines of a file's content from the front. It keeps neither the content nor a list: each call is handed
/// the content again.
#[derive(Drop)]
pub struct ContentStream {
    /// Behind the words that were given, where the content is that of a seed.
    generator: Option<Xoshiro256PlusPlus>,
    /// How many lines were given.
    given: u64,
}

/// The next eight words of a generator.
fn next_line(generator: &mut Xoshiro256PlusPlus) -> Line
    ensures words { (seed given w : ℕ) → generator.old ≡ stream_state seed given → w < 8
        → slice_index result w ≡ stream_word seed (given + w) }
    ensures stands { (seed given : ℕ) → generator.old ≡ stream_state seed given
        → generator.new ≡ stream_state seed (given + 8) }
{
    let mut words = [0; 8];
    'words: for w in 0..8 {
        words[w] = generator.next_word();
    }
    words
}

/// The next words of a generator, eight a line.
fn next_lines(generator: &mut Xoshiro256PlusPlus, lines: &mut [Line])
    ensures words { (seed given k w : ℕ) → generator.old ≡ stream_state seed given → k < length lines.old → w < 8
        → slice_index (line_in lines.new k) w ≡ stream_word seed (given + 8 * k + w) }
    ensures stands { (seed given : ℕ) → generator.old ≡ stream_state seed given
        → generator.new ≡ stream_state seed (given + 8 * length lines.old) }
    ensures whole { (k : ℕ) → k < length lines.old → IsLine (line_in lines.new k) }
{
    'lines: for k in 0..lines.len() {
        lines[k] = next_line(generator);
    }
}

/// The bytes from byte `start` on, 64 a line, with zeros behind the last byte.
fn given_lines(bytes: &[u8], start: u64, lines: &mut [Line])
    requires fits { start + 64 * length lines.old < 2 ^ 64 + 64 }
    ensures bytes { (k b : ℕ) → k < length lines.old → b < 64
        → byte_in (line_in lines.new k) b ≡ slice_index bytes.now (start + 64 * k + b) }
    ensures whole { (k : ℕ) → k < length lines.old → IsLine (line_in lines.new k) }
{
    'lines: for k in 0..lines.len() {
        lines[k] = given_line(bytes, start + 64 * k as u64);
    }
}

/// No bytes but zeros.
fn zero_lines(lines: &mut [Line])
    ensures bytes { (k b : ℕ) → k < length lines.old → b < 64 → byte_in (line_in lines.new k) b ≡ 0 }
    ensures whole { (k : ℕ) → k < length lines.old → IsLine (line_in lines.new k) }
{
    'lines: for k in 0..lines.len() {
        lines[k] = [0; 8];
    }
}

/// The 64 bytes of a content from byte `start` on, as if the file had no end.
fn endless_line(generator: &mut Option<Xoshiro256PlusPlus>, content: &Content, start: u64) -> Line
    requires aligned { start % 64 ≡ 0 }
    requires stands { generator.old ≡ generator_of content.now (start / 8) }
    ensures bytes { (b : ℕ) → b < 64 → byte_in result b ≡ content_byte content.now (start + b) }
    ensures stands { generator.new ≡ generator_of content.now (start / 8 + 8) }
{
    match content {
        Content::Zero => [0; 8],
        Content::Bytes(bytes) => given_line(bytes.as_slice(), start),
        Content::Seed(_) => match generator {
            Some(generator) => next_line(generator),
            None => [0; 8],
        },
    }
}

/// So of a run of lines.
fn endless_lines(
    generator: &mut Option<Xoshiro256PlusPlus>,
    content: &Content,
    start: u64,
    lines: &mut [Line],
)
    requires aligned { start % 64 ≡ 0 }
    requires stands { generator.old ≡ generator_of content.now (start / 8) }
    requires fits { start + 64 * length lines.old < 2 ^ 64 + 64 }
    ensures bytes { (k b : ℕ) → k < length lines.old → b < 64
        → byte_in (line_in lines.new k) b ≡ content_byte content.now (start + 64 * k + b) }
    ensures stands { generator.new ≡ generator_of content.now (start / 8 + 8 * length lines.old) }
    ensures whole { (k : ℕ) → k < length lines.old → IsLine (line_in lines.new k) }
{
    match content {
        Content::Zero => zero_lines(lines),
        Content::Bytes(bytes) => given_lines(bytes.as_slice(), start, lines),
        Content::Seed(_) => match generator {
            Some(generator) => next_lines(generator, lines),
            None => zero_lines(lines),
        },
    }
}

impl ContentStream {
    /// A stream before the first line of a content.
    pub fn new(content: &Content) -> ContentStream
        ensures { StreamStandsFor result content.now 0 }
    {
        let generator = match content {
            Content::Seed(seed) => Some(Xoshiro256PlusPlus::seed_from_u64(*seed)),
            Content::Zero | Content::Bytes(_) => None,
        };
        ContentStream {
            generator,
            given: 0,
        }
    }

    /// The next line of a file of `size` bytes. Its bytes at or past the size are zero. The stream must have been
    /// made from this content, and a line must be left.
    pub fn line(&mut self, content: &Content, size: u64) -> Line
        requires { HasLineLeft self.old content.now size }
        ensures line { (given : ℕ) → StreamStandsFor self.old content.now given
            → result ≡ content_line content.now size given }
        ensures stands { (given : ℕ) → StreamStandsFor self.old content.now given
            → StreamStandsFor self.new content.now (given + 1) }
    {
        let start = 64 * self.given;
        let line = endless_line(&mut self.generator, content, start);
        self.given += 1;
        first_bytes(&line, size - start)
    }

    /// The next lines of a file of `size` bytes, as many as `lines` has: the same as so many calls of `line`. As many
    /// must be left.
    pub fn lines(&mut self, content: &Content, size: u64, lines: &mut [Line])
        requires { HasLinesLeft self.old content.now size (length lines.old) }
        ensures lines { (given k : ℕ) → StreamStandsFor self.old content.now given → k < length lines.old
            → line_in lines.new k ≡ content_line content.now size (given + k) }
        ensures stands { (given : ℕ) → StreamStandsFor self.old content.now given
            → StreamStandsFor self.new content.now (given + length lines.old) }
    {
        if lines.is_empty() {
            return;
        }
        let start = 64 * self.given;
        endless_lines(&mut self.generator, content, start, lines);
        let last = lines.len() - 1;
        let before = start + 64 * last as u64;
        lines[last] = first_bytes(&lines[last], size - before);
        self.given += lines.len() as u64;
    }
}
