//! The laws of contents.

ghost use Rattle.std.specs.Prelude.{◌≡◌, ◌+◌, ◌*◌, ◌/◌, ◌%◌, ◌^◌, ◌<◌, ◌≤◌, ℕ, List, length, slice_index};
ghost use Rattle.fam_base.specs.declared.cmd.Content.{Content};
ghost use Rattle.fam_base.specs.declared.cmd.Content.TheVariants as content;
ghost use Rattle.fam_rules.specs.Content.{stream_word, content_byte, HoldsBytes, fill};
ghost use Rattle.fam_rules.specs.Content.{file_words, content_line, byte_in};

/// Byte `o` of a file is byte `o` mod 64 of its line `o / 64`, and zeros stand behind the last byte. No other eight
/// words hold a line's bytes.
pub fn lines_hold_the_bytes()
    ensures each { (bytes : List ℕ) (o : ℕ) → ((i : ℕ) → slice_index bytes i < 256)
        → byte_in (file_words bytes (o / 64)) (o % 64) ≡ slice_index bytes o }
    ensures only { (words bytes : List ℕ) (j : ℕ) → length words ≡ 8 → ((w : ℕ) → slice_index words w < 2 ^ 64)
        → ((b : ℕ) → b < 64 → byte_in words b ≡ slice_index bytes (64 * j + b)) → words ≡ file_words bytes j }
{}

/// A file has as many bytes as its size says, byte `o` is the content's byte `o`, and each is a byte.
pub fn contents_fill_the_size()
    ensures count { (content : Content) (size : ℕ) → length (fill content size) ≡ size }
    ensures each { (content : Content) (size o : ℕ) → o < size
        → slice_index (fill content size) o ≡ content_byte content o }
    ensures bytes { (content : Content) (size o : ℕ) → HoldsBytes content → slice_index (fill content size) o < 256 }
{}

/// The words of a seeded file that lie wholly below its size are the words of the stream, in order: eight a line.
pub fn seeded_lines_are_the_stream()
    ensures { (seed size j w : ℕ) → w < 8 → 64 * j + 8 * w + 8 ≤ size
        → slice_index (content_line (content.Seed seed) size j) w ≡ stream_word seed (8 * j + w) }
{}
