//! Spelling of the superblock.

ghost use Rattle.std.specs.Prelude.{◌≡◌, ◌++◌};
ghost use Rattle.fam_base.specs.Image.{line_at};
ghost use Rattle.fam_format.specs.Super as format;

use crate::words::MAGIC;
use fam_base::{Line, Params};
use fam_crc::crc_words;
use fam_format::{LOG_OFFSET, word_of_bytes};

/// The superblock as words.
pub struct Super;

fn body(params: &Params) -> [u64; 15]
    ensures { result ≡ format.super_body params.now }
{
    let fs = params.fs.as_bytes();
    let master = params.master.as_bytes();
    [
        params.format,
        LOG_OFFSET,
        params.log_length,
        params.unit,
        params.device,
        word_of_bytes(fs, 0),
        word_of_bytes(fs, 1),
        word_of_bytes(master, 0),
        word_of_bytes(master, 1),
        0,
        0,
        0,
        0,
        0,
        0,
    ]
}

impl Super {
    /// Lines 0, 1 and 2 of the image of a file system with these parameters.
    #[tactic(auto, unfolding(fam_format::specs::Super::super_words))]
    pub fn spell(params: &Params) -> [Line; 3]
        ensures magic { line_at result 0 ≡ format.magic_line }
        ensures words { line_at result 1 ++ line_at result 2 ≡ format.super_words params.now }
    {
        let body = body(params);
        let mut first = [0; 8];
        first.copy_from_slice(&body[..8]);
        let mut second = [0; 8];
        second[..7].copy_from_slice(&body[8..]);
        second[7] = crc_words(&body) as u64;
        [[MAGIC, 0, 0, 0, 0, 0, 0, 0], first, second]
    }
}
