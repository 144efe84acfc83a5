//! The front of a line.

ghost use Rattle.std.specs.Prelude.{◌≡◌, ◌<◌, ℕ, nat_lt, if◌then◌else◌};
ghost use Rattle.fam_base.specs.Image.{byte_of};
ghost use Rattle.fam_rules.specs.Content.{byte_in};

use fam_base::Line;

/// The first `count` bytes of a word, zeros behind.
fn first_of_word(word: u64, count: u64) -> u64
    ensures { (i : ℕ) → i < 8 → byte_of result i ≡ if nat_lt i count then byte_of word i else 0 }
{
    if count < 8 {
        word % (1 << (8 * count))
    } else {
        word
    }
}

/// The first `count` bytes of a line, zeros behind.
pub fn first_bytes(line: &Line, count: u64) -> Line
    ensures { (b : ℕ) → b < 64 → byte_in result b ≡ if nat_lt b count then byte_in line.now b else 0 }
{
    if count >= 64 {
        return *line;
    }
    let mut prefix = [0; 8];
    'words: for w in 0..8 {
        prefix[w] = first_of_word(line[w], count.saturating_sub(8 * w as u64));
    }
    prefix
}
