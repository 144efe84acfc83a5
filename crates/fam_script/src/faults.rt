//! The texts of faults that reading an image finds. fam_outcomes' `specs/Texts.antt` has their forms.

ghost use Rattle.std.specs.Prelude.{◌≡◌, ◌++◌, IfOk, string_bytes};
ghost use Rattle.fam_outcomes.specs.Texts as text;
ghost use Rattle.fam_rules.specs.Reply as reply;

use crate::lines::{line_of, number_line};
use fam_base::{Kind, OutOfMemory, put_bytes};
use fam_format::{LogFault, LogField, Reason, SuperFault, SuperField};
use fam_tree::{Tree, print_listing};
use std::alloc::{AllocError, Global};

fn super_field(field: SuperField) -> &'static str
    ensures { result.now ≡ text.super_field_text field }
{
    match field {
        SuperField::Crc => "crc",
        SuperField::Version => "version",
        SuperField::Offset => "offset",
        SuperField::Unit => "unit",
        SuperField::Length => "length",
        SuperField::Device => "device",
        SuperField::Small => "small",
        SuperField::Rest => "rest",
    }
}

fn log_field(field: LogField) -> &'static str
    ensures { result.now ≡ text.log_field_text field }
{
    match field {
        LogField::Magic => "magic",
        LogField::Crc => "crc",
        LogField::Length => "length",
        LogField::Slots => "slots",
        LogField::Uuid => "uuid",
        LogField::Rest => "rest",
        LogField::Gate => "gate",
    }
}

pub(crate) fn kind(kind: Kind) -> &'static str
    ensures { result.now ≡ text.kind_text kind }
{
    match kind {
        Kind::File => "file",
        Kind::Directory => "directory",
    }
}

pub(crate) fn super_text(alloc: Global, fault: SuperFault) -> Result<String, AllocError>
    ensures { IfOk result (λ s. string_bytes s ≡ text.super_text fault) }
{
    match fault {
        SuperFault::NoSuper(word) => number_text(alloc, "no superblock", word),
        SuperFault::BadSuper {
            field,
            found,
            wanted,
        } => {
            let name = super_field(field);
            format!(in alloc; "bad superblock {name} {found} {wanted}")
        }
    }
}

pub(crate) fn log_text(alloc: Global, fault: LogFault) -> Result<String, AllocError>
    ensures { IfOk result (λ s. string_bytes s ≡ text.log_text fault) }
{
    match fault {
        LogFault::BadLog {
            field,
            found,
            wanted,
        } => {
            let name = log_field(field);
            format!(in alloc; "bad log {name} {found} {wanted}")
        }
    }
}

/// Words and a number behind them.
fn number_text(alloc: Global, words: &str, number: u64) -> Result<String, AllocError>
    ensures { IfOk result (λ s. string_bytes s ≡ words.now ++ text.number number) }
{
    format!(in alloc; "{words} {number}")
}

/// Words and two numbers behind them.
fn numbers_text(alloc: Global, words: &str, first: u64, second: u64) -> Result<String, AllocError>
    ensures { IfOk result (λ s. string_bytes s ≡ words.now ++ (text.number first ++ text.number second)) }
{
    format!(in alloc; "{words} {first} {second}")
}

pub(crate) fn reason_text(alloc: Global, reason: Reason) -> Result<String, AllocError>
    ensures { IfOk result (λ s. string_bytes s ≡ text.reason_text reason) }
{
    match reason {
        Reason::Crc { found, wanted } => numbers_text(alloc, "crc", found, wanted),
        Reason::Seq { found, wanted } => numbers_text(alloc, "sequence", found, wanted),
        Reason::BadKind(word) => number_text(alloc, "kind", word),
        Reason::Attribute(index) => number_text(alloc, "attribute", index),
        Reason::BadPath => format!(in alloc; "path"),
        Reason::Map => format!(in alloc; "map"),
        Reason::Rest(index) => number_text(alloc, "rest", index),
        Reason::Exists(there) => {
            let name = kind(there);
            format!(in alloc; "exists {name}")
        }
        Reason::NoParent => format!(in alloc; "no parent"),
        Reason::ParentIsFile => format!(in alloc; "parent is a file"),
        Reason::Overlap(unit) => number_text(alloc, "overlap", unit),
    }
}

/// The line that says what is wrong with the superblock.
pub(crate) fn super_line(alloc: Global, fault: SuperFault) -> Result<Vec<u8>, OutOfMemory>
    ensures { IfOk result (λ bytes. bytes.items ≡ text.line (text.super_text fault)) }
{
    line_of(alloc, super_text(alloc, fault))
}

/// The line that says what is wrong with the log's header or with the gate.
pub(crate) fn log_line(alloc: Global, fault: LogFault) -> Result<Vec<u8>, OutOfMemory>
    ensures { IfOk result (λ bytes. bytes.items ≡ text.line (text.log_text fault)) }
{
    line_of(alloc, log_text(alloc, fault))
}

/// The line that names a bad slot, and says what is wrong with it.
pub(crate) fn entry_line(alloc: Global, seq: u64, reason: Reason) -> Result<Vec<u8>, OutOfMemory>
    ensures { IfOk result (λ bytes. bytes.items ≡ text.line (text.slot_text seq reason)) }
{
    match reason_text(alloc, reason) {
        Ok(why) => line_of(alloc, format!(in alloc; "bad entry {seq} {why}")),
        Err(_) => Err(OutOfMemory),
    }
}

/// How many entries were played, and their listing.
pub(crate) fn played_lines(alloc: Global, m: u64, tree: &Tree) -> Result<Vec<u8>, OutOfMemory>
    ensures { IfOk result (λ bytes. bytes.items ≡ text.reply_text (reply.Played m tree.now)) }
{
    let mut bytes = number_line(alloc, "played", m)?;
    let listing = print_listing(alloc, tree)?;
    put_bytes(listing.as_slice(), &mut bytes)?;
    Ok(bytes)
}
