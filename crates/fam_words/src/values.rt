//! Values of options and words. `specs/Values.antt` spells them.

ghost use Rattle.std.specs.Prelude.{◌≡◌, ◌≤◌, IfOk, IfSome, option_map};
ghost use Rattle.fam_base.specs.Commands.{IsSoundAttr, mode_limit, read_limit};
ghost use Rattle.fam_format.specs.Params.{first_number};
ghost use Rattle.uuid.specs.Text.{parsed};
ghost use Rattle.fam_grammar.specs.Numbers.{number_of_text, size_of_text};
ghost use Rattle.fam_grammar.specs.Spellings.{count_of, format_of, id_of, mode_of, stripe_with};
ghost use Rattle.fam_words.specs.Values.{IsFormat, attr_of_texts, if_given, most_storm, name_of_text, needed, or_default, path_of_text, storm_size_of, stripe_of_texts};

use fam_base::{Attr, NameText, OutOfMemory, Path, Stripe};
use fam_format::FIRST_FORMAT;
use fam_grammar::{count_of as count, format_of, id_of as id, mode_of as mode, number, size};
use std::alloc::Global;
use uuid::Uuid;

/// A size, or the one that is taken without it.
pub(crate) fn size_or(default: u64, text: Option<&str>) -> Option<u64>
    ensures { result ≡ or_default default size_of_text (option_map (λ s. s.now) text.entry) }
{
    match text {
        Some(text) => size(text.as_bytes()),
        None => Some(default),
    }
}

/// The number of a format, or of the first one without it.
pub(crate) fn format_or_first(text: Option<&str>) -> Option<u64>
    ensures sound { IfSome result IsFormat }
    ensures value { result ≡ or_default first_number format_of (option_map (λ s. s.now) text.entry) }
{
    match text {
        Some(text) => format_of(text.as_bytes()),
        None => Some(FIRST_FORMAT),
    }
}

/// A size.
pub(crate) fn size_of(text: Option<&str>) -> Option<u64>
    ensures { result ≡ needed size_of_text (option_map (λ s. s.now) text.entry) }
{
    size(text?.as_bytes())
}

/// The size of a storm: 1 to 100,000.
pub(crate) fn storm_size(text: Option<&str>) -> Option<u64>
    ensures small { IfSome result (λ size. (1 ≤ size) × (size ≤ most_storm)) }
    ensures value { result ≡ needed storm_size_of (option_map (λ s. s.now) text.entry) }
{
    match size(text?.as_bytes()) {
        Some(0) => None,
        Some(n) if n < 100_001 => Some(n),
        _ => None,
    }
}

/// A number.
pub(crate) fn number_of(text: Option<&str>) -> Option<u64>
    ensures { result ≡ needed number_of_text (option_map (λ s. s.now) text.entry) }
{
    number(text?.as_bytes())
}

/// A number, or nothing without it.
pub(crate) fn number_if_given(text: Option<&str>) -> Option<Option<u64>>
    ensures { result ≡ if_given number_of_text (option_map (λ s. s.now) text.entry) }
{
    match text {
        Some(text) => match number(text.as_bytes()) {
            Some(n) => Some(Some(n)),
            None => None,
        },
        None => Some(None),
    }
}

/// A count of at most 4,096.
pub(crate) fn count_of(text: Option<&str>) -> Option<u64>
    ensures small { IfSome result (λ count. count ≤ read_limit) }
    ensures value { result ≡ needed count_of (option_map (λ s. s.now) text.entry) }
{
    count(text?.as_bytes())
}

/// A UUID, or nothing without it.
pub(crate) fn uuid_if_given(text: Option<&str>) -> Option<Option<Uuid>>
    ensures { result ≡ if_given parsed (option_map (λ s. s.now) text.entry) }
{
    match text {
        Some(text) => match Uuid::parse_str(text) {
            Ok(uuid) => Some(Some(uuid)),
            Err(_) => None,
        },
        None => Some(None),
    }
}

/// A path.
pub(crate) fn path_of(text: Option<&str>) -> Option<Path>
    ensures { result ≡ needed path_of_text (option_map (λ s. s.now) text.entry) }
{
    match Path::read(text?.as_bytes()) {
        Ok(path) => Some(path),
        Err(_) => None,
    }
}

/// The name of a file outside the image.
pub(crate) fn name_of(alloc: Global, text: Option<&str>) -> Result<Option<NameText>, OutOfMemory>
    ensures { IfOk result (λ name. name ≡ needed name_of_text (option_map (λ s. s.now) text.entry)) }
{
    match text {
        Some(text) => {
            if text.as_bytes().is_empty() {
                return Ok(None);
            }
            Ok(Some(NameText::new(alloc, text)?))
        }
        None => Ok(None),
    }
}

/// A mode, or the one that is taken without it.
fn mode_or(default: u32, text: Option<&str>) -> Option<u32>
    requires { default ≤ mode_limit }
    ensures small { IfSome result (λ mode. mode ≤ mode_limit) }
    ensures value { result ≡ or_default default mode_of (option_map (λ s. s.now) text.entry) }
{
    match text {
        Some(text) => mode(text.as_bytes()),
        None => Some(default),
    }
}

/// A user or a group, or the first one.
fn id_or_first(text: Option<&str>) -> Option<u32>
    ensures { result ≡ or_default 0 id_of (option_map (λ s. s.now) text.entry) }
{
    match text {
        Some(text) => id(text.as_bytes()),
        None => Some(0),
    }
}

/// Mode, user and group.
pub(crate) fn attr_of(
    default: u32,
    mode: Option<&str>,
    uid: Option<&str>,
    gid: Option<&str>,
) -> Option<Attr>
    requires { default ≤ mode_limit }
    ensures sound { IfSome result IsSoundAttr }
    ensures value { result ≡ attr_of_texts default (option_map (λ s. s.now) mode.entry) (option_map (λ s. s.now) uid.entry) (option_map (λ s. s.now) gid.entry) }
{
    let Some(mode) = mode_or(default, mode) else {
        return None;
    };
    let Some(uid) = id_or_first(uid) else {
        return None;
    };
    let Some(gid) = id_or_first(gid) else {
        return None;
    };
    Some(Attr { mode, uid, gid })
}

/// Strips, buckets and chunk.
fn stripe_with(strips: &str, buckets: &str, chunk: &str) -> Option<Stripe>
    ensures { result ≡ stripe_with (number_of_text strips.now) (number_of_text buckets.now) (size_of_text chunk.now) }
{
    let Some(nstrips) = number(strips.as_bytes()) else {
        return None;
    };
    let Some(nbuckets) = number(buckets.as_bytes()) else {
        return None;
    };
    let Some(chunk) = size(chunk.as_bytes()) else {
        return None;
    };
    Some(Stripe {
        nstrips,
        nbuckets,
        chunk,
    })
}

/// Strips, buckets and chunk, or none of them.
pub(crate) fn stripe_of(
    strips: Option<&str>,
    buckets: Option<&str>,
    chunk: Option<&str>,
) -> Option<Option<Stripe>>
    ensures { result ≡ stripe_of_texts (option_map (λ s. s.now) strips.entry) (option_map (λ s. s.now) buckets.entry) (option_map (λ s. s.now) chunk.entry) }
{
    match (strips, buckets, chunk) {
        (None, None, None) => Some(None),
        (Some(strips), Some(buckets), Some(chunk)) => match stripe_with(strips, buckets, chunk) {
            Some(stripe) => Some(Some(stripe)),
            None => None,
        },
        _ => None,
    }
}
