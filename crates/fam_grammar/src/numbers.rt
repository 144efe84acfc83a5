//! Numbers and sizes as words spell them. `specs/Numbers.antt` has the rules.

ghost use Rattle.std.specs.Prelude.{◌≡◌};
ghost use Rattle.fam_grammar.specs.Numbers.{digit_behind, number_of_text, multiplier_of, size_of_text};

/// The most digits of a number.
const MOST_DIGITS: usize = 20;

/// A number with one more digit behind it, and `None` exactly where the byte is no digit, or the number needs more
/// than 64 bits.
fn with_digit(number: u64, byte: u8) -> Option<u64>
    ensures { result ≡ digit_behind number byte }
{
    if !byte.is_ascii_digit() {
        return None;
    }
    number.checked_mul(10)?.checked_add((byte - b'0') as u64)
}

#[tactic(auto, unfolding(crate::specs::Numbers::number_of_text))]
/// The number that 1 to 20 decimal digits spell, and `None` exactly where the text isn't these, or the number needs
/// more than 64 bits.
pub fn number(text: &[u8]) -> Option<u64>
    ensures { result ≡ number_of_text text.now }
{
    if text.is_empty() {
        return None;
    }
    if text.len() > MOST_DIGITS {
        return None;
    }
    let mut number = 0;
    for byte in text {
        number = with_digit(number, *byte)?;
    }
    Some(number)
}

/// What a letter behind a number multiplies it by.
fn multiplier(letter: u8) -> Option<u64>
    ensures { result ≡ multiplier_of letter }
{
    match letter {
        b'k' | b'K' => Some(1024),
        b'm' | b'M' => Some(1_048_576),
        b'g' | b'G' => Some(1_073_741_824),
        _ => None,
    }
}

#[tactic(auto, unfolding(crate::specs::Numbers::size_of_text))]
/// The bytes that a size spells: a number, and at most one of the letters k, K, m, M, g and G behind it. `None` comes
/// exactly where the text is no size, or it needs more than 64 bits.
pub fn size(text: &[u8]) -> Option<u64>
    ensures { result ≡ size_of_text text.now }
{
    match text {
        [] => None,
        [prefix @ .., letter] => match multiplier(*letter) {
            Some(times) => number(prefix)?.checked_mul(times),
            None => number(text),
        },
    }
}
