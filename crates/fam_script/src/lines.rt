//! Lines of text, and names in them.

ghost use Rattle.std.specs.Prelude.{◌≡◌, ◌++◌, [], ◌∷◌, ℕ, List, IfOk, string_bytes};
ghost use Rattle.fam_base.specs.Escapes.{escaped};
ghost use Rattle.fam_outcomes.specs.Texts as text;

use fam_base::{OutOfMemory, escape, put_bytes};
use std::alloc::{AllocError, Global};
use uuid::Uuid;

/// A text as a line.
pub fn line(alloc: Global, words: &str) -> Result<Vec<u8>, OutOfMemory>
    ensures { IfOk result (λ bytes. bytes.items ≡ text.line words.now) }
{
    let mut bytes = Vec::new(alloc);
    put_bytes(words.as_bytes(), &mut bytes)?;
    put_bytes(b"\n", &mut bytes)?;
    Ok(bytes)
}

/// The line of a text that may have found no memory.
pub fn line_of(alloc: Global, made: Result<String, AllocError>) -> Result<Vec<u8>, OutOfMemory>
    ensures { (want : List ℕ) → IfOk made (λ s. string_bytes s ≡ want) →
        IfOk result (λ bytes. bytes.items ≡ text.line want) }
{
    match made {
        Ok(text) => line(alloc, text.as_str()),
        Err(_) => Err(OutOfMemory),
    }
}

/// The line of words and a number behind them.
pub(crate) fn number_line(alloc: Global, words: &str, number: u64) -> Result<Vec<u8>, OutOfMemory>
    ensures { IfOk result (λ bytes. bytes.items ≡ text.line (words.now ++ text.number number)) }
{
    line_of(alloc, format!(in alloc; "{words} {number}"))
}

/// The line of words and two numbers behind them.
pub(crate) fn numbers_line(
    alloc: Global,
    words: &str,
    first: u64,
    second: u64,
) -> Result<Vec<u8>, OutOfMemory>
    ensures { IfOk result (λ bytes. bytes.items ≡ text.line (words.now ++ (text.number first ++ text.number second))) }
{
    line_of(alloc, format!(in alloc; "{words} {first} {second}"))
}

/// The line of words and a UUID behind them.
pub(crate) fn uuid_line(alloc: Global, words: &str, uuid: Uuid) -> Result<Vec<u8>, OutOfMemory>
    ensures { IfOk result (λ bytes. bytes.items ≡ text.line (words.now ++ text.uuid_text uuid)) }
{
    line_of(alloc, format!(in alloc; "{words} {uuid}"))
}

/// The line of a text with bytes in it, which are printed as they are.
pub fn line_with(alloc: Global, prefix: &str, bytes: &[u8]) -> Result<Vec<u8>, OutOfMemory>
    ensures { IfOk result (λ made. made.items ≡ text.line (prefix.now ++ bytes.now)) }
{
    let mut text = Vec::new(alloc);
    put_bytes(prefix.as_bytes(), &mut text)?;
    put_bytes(bytes, &mut text)?;
    put_bytes(b"\n", &mut text)?;
    Ok(text)
}

/// The line of a text with a name in it, of a path or a file, which is printed with escapes.
pub(crate) fn line_with_name(
    alloc: Global,
    prefix: &str,
    name: &[u8],
    back: &str,
) -> Result<Vec<u8>, OutOfMemory>
    ensures { IfOk result (λ made. made.items ≡ text.line (prefix.now ++ escaped name.now ++ back.now)) }
{
    let mut text = Vec::new(alloc);
    put_bytes(prefix.as_bytes(), &mut text)?;
    escape(name, &mut text)?;
    put_bytes(back.as_bytes(), &mut text)?;
    put_bytes(b"\n", &mut text)?;
    Ok(text)
}

/// The line of a text with a name at its end, behind a space.
pub fn line_with_last_name(alloc: Global, prefix: &str, name: &[u8]) -> Result<Vec<u8>, OutOfMemory>
    ensures { IfOk result (λ made. made.items ≡ text.line (prefix.now ++ text.name_text name.now)) }
{
    let mut text = Vec::new(alloc);
    put_bytes(prefix.as_bytes(), &mut text)?;
    put_bytes(b" ", &mut text)?;
    escape(name, &mut text)?;
    put_bytes(b"\n", &mut text)?;
    Ok(text)
}
