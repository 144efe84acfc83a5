//! The log's header line: its words, and the tests of a reader in their order.

ghost use Rattle.std.specs.Prelude.{◌≡◌, ◌+◌, OnOk, IsOk, length};
ghost use Rattle.fam_format.specs.Log as header;
ghost use Rattle.fam_entry.specs.Header.{sizes_fault, rest_fault};
ghost use Rattle.fam_entry.specs.Tests.{NamesFault};

use crate::places::HEADER_CRC_WORD;
use fam_base::{Line, Params};
use fam_crc::crc_words;
use fam_format::{LogFault, LogField, word_of_bytes};

/// Word 0 of the header: the bytes `famfslog`.
const LOG_MAGIC: u64 = 0x676f_6c73_666d_6166;

/// The log's header: magic, log length, slots, the file system's UUID, zeros, and the checksum.
#[tactic(auto, unfolding(fam_format::specs::Log::log_words))]
pub fn spell_log(params: &Params) -> Line
    ensures { result ≡ header.log_words params.now }
{
    let fs = params.fs.as_bytes();
    let mut words = [
        LOG_MAGIC,
        params.log_length,
        params.slots,
        word_of_bytes(fs, 0),
        word_of_bytes(fs, 1),
        0,
        0,
        0,
    ];
    words[HEADER_CRC_WORD] = crc_words(&words[..HEADER_CRC_WORD]) as u64;
    words
}

fn expect(field: LogField, found: u64, wanted: u64) -> Result<(), LogFault>
    ensures { NamesFault result (header.field_fault field found wanted) }
{
    if found == wanted {
        return Ok(());
    }
    Err(LogFault::BadLog {
        field,
        found,
        wanted,
    })
}

/// Whether magic, checksum, length and count of slots are as they should be, in this order.
fn check_sizes(line: &Line, params: &Params) -> Result<(), LogFault>
    ensures { NamesFault result (sizes_fault line.now params.now) }
{
    let checksum = crc_words(&line[..HEADER_CRC_WORD]) as u64;
    expect(LogField::Magic, line[0], LOG_MAGIC)?;
    expect(LogField::Crc, line[HEADER_CRC_WORD], checksum)?;
    expect(LogField::Length, line[1], params.log_length)?;
    expect(LogField::Slots, line[2], params.slots)
}

/// Whether the UUID is the file system's and zeros stand behind it, in this order.
fn check_rest(line: &Line, params: &Params) -> Result<(), LogFault>
    ensures { NamesFault result (rest_fault line.now params.now) }
{
    let fs = params.fs.as_bytes();
    expect(LogField::Uuid, line[3], word_of_bytes(fs, 0))?;
    expect(LogField::Uuid, line[4], word_of_bytes(fs, 1))?;
    expect(LogField::Rest, line[5], 0)?;
    expect(LogField::Rest, line[6], 0)
}

fn tested(line: &Line, params: &Params) -> Result<(), LogFault>
    ensures first { NamesFault result (header.log_fault line.now params.now) }
    ensures count { length line.now ≡ HEADER_CRC_WORD + 1 }
{
    check_sizes(line, params)?;
    check_rest(line, params)
}

/// Whether a line is the log's header for these parameters; if not, the first field that isn't as it should be.
/// The gate stands in another line, and isn't looked at.
pub fn read_log(line: &Line, params: &Params) -> Result<(), LogFault>
    ensures first { NamesFault result (header.log_fault line.now params.now) }

    ensures found { OnOk result (line.now ≡ header.log_words params.now) }
    ensures only { line.now ≡ header.log_words params.now → IsOk result }
{
    tested(line, params)
}
