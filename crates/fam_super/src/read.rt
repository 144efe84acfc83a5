//! Reading of the superblock: a test for each row of the table, in the table's order.

ghost use Rattle.std.specs.Prelude.{◌≡◌, ◌<◌, ◌≤◌, ◌++◌, IfOk, None, Ok};
ghost use Rattle.fam_base.specs.declared.entry.Params.{Params};
ghost use Rattle.fam_base.specs.Image.{line_at, word_at};
ghost use Rattle.fam_format.specs.Super as format;
ghost use Rattle.fam_format.specs.Params as params;
ghost use Rattle.fam_format.specs.Words.{bytes_from, uuid_bytes};
ghost use Rattle.fam_format.specs.Layout.{device_limit};
ghost use Rattle.fam_format.specs.Reading.{super_in};
ghost use Rattle.fam_format.specs.SuperLaws.{IsSuper, IsWords};

use crate::words::{
    CRC_WORD, DEVICE_WORD, FS_WORD, LAST_VERSION, LENGTH_WORD, MAGIC, MASTER_WORD, OFFSET_WORD,
    REST_WORD, SuperWords, UNIT_WORD, VERSION_WORD, words_of,
};
use fam_base::{Line, Params};
use fam_crc::crc_words;
use fam_format::{LOG_OFFSET, SuperFault, SuperField, byte_of, is_format, shape_of};
use uuid::Uuid;

/// The fewest bytes of a unit.
const LEAST_UNIT: u64 = 4096;

/// The most bytes of a unit.
const MOST_UNIT: u64 = 2_097_152;

/// The most bytes of a log.
pub const LOG_LIMIT: u64 = 67_108_864;

fn magic_fault(word: u64) -> Option<SuperFault>
    ensures { result ≡ format.magic_fault word }
{
    if word == MAGIC {
        return None;
    }
    Some(SuperFault::NoSuper(word))
}

fn crc_fault(words: &SuperWords) -> Option<SuperFault>
    ensures value { result ≡ format.crc_fault words.now }
    ensures words { IsWords 16 words.now }
{
    let wanted = crc_words(&words[..CRC_WORD]) as u64;
    if words[CRC_WORD] == wanted {
        return None;
    }
    Some(SuperFault::BadSuper {
        field: SuperField::Crc,
        found: words[CRC_WORD],
        wanted,
    })
}

fn version_fault(words: &SuperWords) -> Option<SuperFault>
    ensures { result ≡ format.version_fault words.now }
{
    if is_format(words[VERSION_WORD]) {
        return None;
    }
    Some(SuperFault::BadSuper {
        field: SuperField::Version,
        found: words[VERSION_WORD],
        wanted: LAST_VERSION,
    })
}

fn offset_fault(words: &SuperWords) -> Option<SuperFault>
    ensures { result ≡ format.offset_fault words.now }
{
    if words[OFFSET_WORD] == LOG_OFFSET {
        return None;
    }
    Some(SuperFault::BadSuper {
        field: SuperField::Offset,
        found: words[OFFSET_WORD],
        wanted: LOG_OFFSET,
    })
}

/// Whether so many bytes can be a unit: a power of two from 4 KiB to 2 MiB.
pub fn is_unit(unit: u64) -> bool
    ensures { result ≡ params.is_unit unit }
{
    (LEAST_UNIT..=MOST_UNIT).contains(&unit) && unit.is_power_of_two()
}

fn unit_fault(words: &SuperWords) -> Option<SuperFault>
    ensures { result ≡ format.unit_fault words.now }
{
    if is_unit(words[UNIT_WORD]) {
        return None;
    }
    Some(SuperFault::BadSuper {
        field: SuperField::Unit,
        found: words[UNIT_WORD],
        wanted: LEAST_UNIT,
    })
}

fn length_fault(words: &SuperWords) -> Option<SuperFault>
    requires { format.unit_fault words.now ≡ None }
    ensures { result ≡ format.length_fault words.now }
{
    let length = words[LENGTH_WORD];
    if length > 0 && length % words[UNIT_WORD] == 0 && length <= LOG_LIMIT {
        return None;
    }
    Some(SuperFault::BadSuper {
        field: SuperField::Length,
        found: length,
        wanted: words[UNIT_WORD],
    })
}

fn device_fault(words: &SuperWords, have: u64) -> Option<SuperFault>
    ensures { result ≡ format.device_fault words.now have }
{
    if words[DEVICE_WORD] <= have {
        return None;
    }
    Some(SuperFault::BadSuper {
        field: SuperField::Device,
        found: words[DEVICE_WORD],
        wanted: have,
    })
}

fn small_fault(words: &SuperWords) -> Option<SuperFault>
    requires unit { format.unit_fault words.now ≡ None }
    requires length { format.length_fault words.now ≡ None }
    ensures { result ≡ format.small_fault words.now }
{
    let need = LOG_OFFSET + words[LENGTH_WORD] + words[UNIT_WORD];
    if words[DEVICE_WORD] >= need {
        return None;
    }
    Some(SuperFault::BadSuper {
        field: SuperField::Small,
        found: words[DEVICE_WORD],
        wanted: need,
    })
}

fn used_word(words: &[u64]) -> Option<SuperFault>
    ensures { result ≡ format.used_word words.now }
{
    for word in words {
        if *word != 0 {
            return Some(SuperFault::BadSuper {
                field: SuperField::Rest,
                found: *word,
                wanted: 0,
            });
        }
    }
    None
}

fn rest_fault(words: &SuperWords) -> Option<SuperFault>
    ensures { result ≡ format.rest_fault words.now }
{
    used_word(&words[REST_WORD..CRC_WORD])
}

fn uuid_from(first: usize, words: &SuperWords) -> Uuid
    requires { first < 15 }
    ensures { result ≡ bytes_from first words.now uuid_bytes }
{
    let mut bytes = [0; 16];
    for i in 0..16 {
        bytes[i] = byte_of(words[first + i / 8], i % 8);
    }
    Uuid::from_bytes(bytes)
}

#[tactic(auto, unfolding(fam_format::specs::Super::params_of))]
fn params_of(words: &SuperWords) -> Params
    requires unit { format.unit_fault words.now ≡ None }
    requires length { format.length_fault words.now ≡ None }
    ensures { result ≡ format.params_of words.now }
{
    Params {
        format: words[VERSION_WORD],
        log_length: words[LENGTH_WORD],
        slots: words[LENGTH_WORD] / shape_of(words[VERSION_WORD]).bytes - 1,
        unit: words[UNIT_WORD],
        device: words[DEVICE_WORD],
        fs: uuid_from(FS_WORD, words),
        master: uuid_from(MASTER_WORD, words),
    }
}

#[tactic(auto, unfolding(fam_format::specs::Super::super_body_of))]
fn read_body(words: &SuperWords, have: u64) -> Result<Params, SuperFault>
    ensures value { result ≡ format.super_body_of words.now have }
    ensures words { IsWords 16 words.now }
{
    if let Some(fault) = crc_fault(words) {
        return Err(fault);
    }
    if let Some(fault) = version_fault(words) {
        return Err(fault);
    }
    if let Some(fault) = offset_fault(words) {
        return Err(fault);
    }
    if let Some(fault) = unit_fault(words) {
        return Err(fault);
    }
    if let Some(fault) = length_fault(words) {
        return Err(fault);
    }
    if let Some(fault) = device_fault(words, have) {
        return Err(fault);
    }
    if let Some(fault) = small_fault(words) {
        return Err(fault);
    }
    if let Some(fault) = rest_fault(words) {
        return Err(fault);
    }
    Ok(params_of(words))
}

/// The parameters that lines 0, 1 and 2 tell, or the first fault. `have` is the image's bytes; it may have more
/// than the device. Words 1 to 7 of line 0 aren't looked at.
#[tactic(auto, unfolding(fam_format::specs::Super::super_of))]
pub fn read_super(lines: &[Line; 3], have: u64) -> Result<Params, SuperFault>
    ensures value { result ≡ super_in (line_at lines.now) have }

    // An image has at most 1 TiB, so the device does too.
    ensures found { have ≤ device_limit → IfOk result (λ p.
        IsSuper (word_at lines.now 0 0) (line_at lines.now 1 ++ line_at lines.now 2) have p) }
    ensures only { (p : Params)
        → IsSuper (word_at lines.now 0 0) (line_at lines.now 1 ++ line_at lines.now 2) have p
        → result ≡ Ok p }
{
    if let Some(fault) = magic_fault(lines[0][0]) {
        return Err(fault);
    }
    read_body(&words_of(lines), have)
}
