//! Which answers fit a question about a file, by where its bytes are from.

ghost use Rattle.std.specs.Prelude.{◌≡◌, ◌≢◌, ◌↔◌, ◌<◌, Some, IsTrue, length};
ghost use Rattle.fam_rules.specs.Asks.{file_bytes_from};
ghost use Rattle.fam_judge.specs.Fitting.{FitBytes, FitsWanted, AllowsSize};
ghost use Rattle.fam_judge.specs.Untold.{untold_content};
ghost use Rattle.fam_settled.specs.Bytes.{byte_told, file_bytes_told};
ghost use Rattle.fam_settled.specs.Fits.{FirstDiffers, IsSame, MayDifferAt, ReadTold, VerifiedTold, content_in, count_in, bytes_against};

use crate::against::Against;
use crate::agree::{may_agree, may_have};
use crate::bytes::Bytes;
use fam_base::Content;
use fam_content::are_bytes;
use fam_history::ToldAnswer;

/// What a file is compared with, by a content.
pub(crate) fn against_of(content: &Content) -> Against
    ensures { content_in result ≡ untold_content content.now }
{
    match content {
        Content::Zero => Against::Zero,
        Content::Seed(seed) => Against::Seed(*seed),
        Content::Bytes(bytes) => Against::Untold(bytes.as_slice().len() as u64),
    }
}

/// Where its bytes are from.
fn source_of(against: Against) -> Bytes
    ensures { result ≡ bytes_against against }
{
    match against {
        Against::Zero => Bytes::Zero,
        Against::Seed(seed) => Bytes::Seed(seed),
        Against::Untold(_) => Bytes::Untold,
    }
}

/// Whether a file of this size has as many bytes, where it is told how many there are.
fn is_long(against: Against, size: u64) -> bool
    ensures { IsTrue result ↔ AllowsSize (count_in against) size }
{
    match against {
        Against::Untold(count) => count == size,
        _ => true,
    }
}

/// Whether a file of this size may have the same bytes, and as many.
fn same_fits(bytes: &Bytes, size: u64, against: Against) -> bool
    ensures { IsTrue result ↔ IsSame (file_bytes_told bytes.now size) (content_in against) }
{
    if !is_long(against, size) {
        return false;
    }
    may_agree(bytes, &source_of(against), size)
}

/// Whether the byte of a file at an offset may be this one.
fn may_have_one(bytes: &Bytes, size: u64, offset: u64, byte: u8) -> bool
    requires { offset < size }
    ensures { IsTrue result ↔ FitsWanted (byte_told bytes.now offset) byte }
{
    may_have(bytes, size, offset, &[byte])
}

/// Whether the bytes of a file and of what it is compared with may be these at an offset.
fn may_have_two(
    bytes: &Bytes,
    source: &Bytes,
    size: u64,
    offset: u64,
    found: u8,
    wanted: u8,
) -> bool
    requires { offset < size }
    ensures { IsTrue result ↔ (FitsWanted (byte_told bytes.now offset) found × FitsWanted (byte_told source.now offset) wanted) }
{
    if !may_have_one(bytes, size, offset, found) {
        return false;
    }
    may_have_one(source, size, offset, wanted)
}

/// Whether the two may first differ there.
fn may_differ(bytes: &Bytes, source: &Bytes, size: u64, offset: u64, found: u8, wanted: u8) -> bool
    requires { offset < size }
    ensures { IsTrue result ↔ MayDifferAt bytes.now source.now offset found wanted }
{
    if !may_agree(bytes, source, offset) {
        return false;
    }
    may_have_two(bytes, source, size, offset, found, wanted)
}

/// Whether a file of this size may first differ so.
fn differs_fits(
    bytes: &Bytes,
    size: u64,
    against: Against,
    offset: u64,
    found: u8,
    wanted: u8,
) -> bool
    ensures { IsTrue result ↔ FirstDiffers (file_bytes_told bytes.now size) (content_in against) offset found wanted }
{
    if !is_long(against, size) {
        return false;
    }
    if offset >= size {
        return false;
    }
    if found == wanted {
        return false;
    }
    may_differ(bytes, &source_of(against), size, offset, found, wanted)
}

/// Whether so many bytes were wanted of a file of another size.
fn length_fits(size: u64, against: Against, found: u64, wanted: u64) -> bool
    ensures { IsTrue result ↔ ((found ≡ size) × (count_in against ≡ Some wanted) × (wanted ≢ found)) }
{
    match against {
        Against::Untold(count) => found == size && count == wanted && wanted != found,
        _ => false,
    }
}

/// Whether a verify of the first `m` entries may be answered so, by a file's bytes.
pub(crate) fn verified_fits(
    m: u64,
    bytes: &Bytes,
    size: u64,
    against: Against,
    answer: &ToldAnswer,
) -> bool
    ensures { IsTrue result ↔ VerifiedTold m (file_bytes_told bytes.now size) (content_in against) answer.now }
{
    match answer {
        ToldAnswer::Same(n) => *n == m && same_fits(bytes, size, against),
        ToldAnswer::Differs {
            entries,
            offset,
            found,
            wanted,
        } => *entries == m && differs_fits(bytes, size, against, *offset, *found, *wanted),
        ToldAnswer::Length {
            entries,
            size: found,
            wanted,
        } => *entries == m && length_fits(size, against, *found, *wanted),
        _ => false,
    }
}

/// Whether so many bytes from an offset on may be these.
fn bytes_fit(bytes: &Bytes, size: u64, offset: u64, count: u64, given: &[u8]) -> bool
    ensures { IsTrue result ↔ FitBytes (file_bytes_from offset count (file_bytes_told bytes.now size)) given.now }
{
    are_bytes(given);
    if given.len() as u64 != count.min(size.saturating_sub(offset)) {
        return false;
    }
    if given.is_empty() {
        return true;
    }
    may_have(bytes, size, offset, given)
}

/// Whether a read of the first `m` entries may be answered so, by a file's bytes.
pub(crate) fn read_fits(
    m: u64,
    bytes: &Bytes,
    size: u64,
    offset: u64,
    count: u64,
    answer: &ToldAnswer,
) -> bool
    ensures { IsTrue result ↔ ReadTold m (file_bytes_told bytes.now size) offset count answer.now }
{
    match answer {
        ToldAnswer::Bytes(n, given) => {
            *n == m && bytes_fit(bytes, size, offset, count, given.as_slice())
        }
        _ => false,
    }
}
