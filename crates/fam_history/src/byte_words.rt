//! Bytes as words spell them. `specs/ByteWords.antt` has the forms.

ghost use Rattle.std.specs.Prelude.{◌≡◌, ◌<◌, IfOk, IfSome, MatchOption, length, option_map};
ghost use Rattle.fam_grammar.specs.Spellings.{byte_of, in_prefix};
ghost use Rattle.fam_history.specs.ByteWords.{bytes_of_word, one_byte, paired};
ghost use Rattle.uuid.specs.Text.{hex_digit_value};

use crate::literals::is;
use fam_base::{OutOfMemory, SharedBytes};
use std::alloc::Global;

/// The value of a digit of sixteen, in either case.
fn hex_value(digit: u8) -> Option<u8>
    ensures value { result ≡ hex_digit_value digit }
    ensures small { IfSome result (λ n. n < 16) }
{
    match digit {
        b'0'..=b'9' => Some(digit - b'0'),
        b'a'..=b'f' => Some(digit - b'a' + 10),
        b'A'..=b'F' => Some(digit - b'A' + 10),
        _ => None,
    }
}

/// The byte that two digits of sixteen stand for.
fn byte_of(high: u8, low: u8) -> Option<u8>
    ensures { result ≡ byte_of high low }
{
    Some(16 * hex_value(high)? + hex_value(low)?)
}

/// The byte of a word of two digits.
pub(crate) fn one_byte(word: &[u8]) -> Option<u8>
    ensures { result ≡ one_byte word.now }
{
    match word {
        [high, low] => byte_of(*high, *low),
        _ => None,
    }
}

/// The byte that stands in front of a word, and the rest of the word.
fn first_pair(word: &[u8]) -> Option<(u8, &[u8])>
    requires { 0 < length word.now }
    ensures cases { MatchOption result (paired word.now ≡ None) (λ p. paired word.now ≡ in_prefix p.0 (paired p.1.now)) }
    ensures shorter { IfSome result (λ p. length p.1.now < length word.now) }
{
    match word {
        [high, low, rest @ ..] => Some((byte_of(*high, *low)?, rest)),
        _ => None,
    }
}

/// The bytes of a word with two digits for each.
fn paired(alloc: Global, word: &[u8]) -> Result<Option<Vec<u8>>, OutOfMemory>
    ensures { IfOk result (λ o. option_map (λ v. v.items) o ≡ paired word.now) }
{
    let mut bytes = Vec::new(alloc);
    let mut rest = word;
    while !rest.is_empty() {
        let Some((byte, more)) = first_pair(rest) else {
            return Ok(None);
        };
        if bytes.push(byte).is_err() {
            return Err(OutOfMemory);
        }
        rest = more;
    }
    Ok(Some(bytes))
}

/// The bytes of a word.
#[tactic(auto, unfolding(crate::specs::ByteWords::bytes_of_word))]
pub(crate) fn bytes_of(alloc: Global, word: &[u8]) -> Result<Option<SharedBytes>, OutOfMemory>
    ensures { IfOk result (λ b. b ≡ bytes_of_word word.now) }
{
    if is(word, "-") {
        return Ok(Some(SharedBytes::new(alloc, Vec::new(alloc))?));
    }
    let Some(bytes) = paired(alloc, word)? else {
        return Ok(None);
    };
    Ok(Some(SharedBytes::new(alloc, bytes)?))
}
