//! Options of a line. `specs/Options.antt` has their words.

ghost use Rattle.std.specs.Prelude.{◌≡◌};
ghost use Rattle.fam_grammar.specs.Options.{file_option_of, with_file_option, with_file_word, no_file_options, mkfs_option_of, with_mkfs_option, with_mkfs_word, no_mkfs_options};

use crate::keywords::is;
use crate::numbers::{number, size};
use crate::spellings::{format_of, halted_of, id_of, mode_of, stripe_of, value_behind};
use fam_base::Stripe;

/// An option of mkdir, creat or cp.
#[derive(Clone, Copy)]
pub(crate) enum FileOption {
    Mode(u32),
    Uid(u32),
    Gid(u32),
    Seed(u64),
    Stripe(Stripe),
}

/// The options of mkdir, creat or cp that are given so far.
#[derive(Clone, Copy)]
pub struct FileOptions {
    pub mode: Option<u32>,
    pub uid: Option<u32>,
    pub gid: Option<u32>,
    pub seed: Option<u64>,
    pub stripe: Option<Stripe>,
}

/// Which options a command takes besides those of mode, user and group.
#[derive(Clone, Copy)]
pub struct Takes {
    pub seed: bool,
    pub stripe: bool,
}

/// An option of mkfs.
#[derive(Clone, Copy)]
pub(crate) enum MkfsOption {
    Unit(u64),
    Log(u64),
    Format(u64),
    Force,
    Halt(u64),
}

/// The options of mkfs that are given so far.
#[derive(Clone, Copy)]
pub(crate) struct MkfsOptions {
    pub(crate) unit: Option<u64>,
    pub(crate) log: Option<u64>,
    pub(crate) format: Option<u64>,
    pub(crate) force: bool,
    pub(crate) halt: Option<u64>,
}

/// A word's option of mkdir, creat or cp.
#[tactic(auto, unfolding(crate::specs::Options::file_option_of))]
fn file_option_of(word: &[u8]) -> Option<FileOption>
    ensures { result ≡ file_option_of word.now }
{
    if let Some(value) = value_behind("mode=", word) {
        return mode_of(value).map(FileOption::Mode);
    }
    if let Some(value) = value_behind("uid=", word) {
        return id_of(value).map(FileOption::Uid);
    }
    if let Some(value) = value_behind("gid=", word) {
        return id_of(value).map(FileOption::Gid);
    }
    if let Some(value) = value_behind("seed=", word) {
        return number(value).map(FileOption::Seed);
    }
    if let Some(value) = value_behind("stripe=", word) {
        return stripe_of(value).map(FileOption::Stripe);
    }
    None
}

impl FileOptions {
    /// No option.
    pub(crate) fn none() -> FileOptions
        ensures { result ≡ no_file_options }
    {
        FileOptions {
            mode: None,
            uid: None,
            gid: None,
            seed: None,
            stripe: None,
        }
    }

    /// One more option, where the line takes it and it isn't given yet.
    fn with(self, takes: Takes, option: FileOption) -> Option<FileOptions>
        ensures { result ≡ with_file_option takes self option }
    {
        let mut more = self;
        match option {
            FileOption::Mode(mode) => {
                if self.mode.is_some() {
                    return None;
                }
                more.mode = Some(mode);
            }
            FileOption::Uid(uid) => {
                if self.uid.is_some() {
                    return None;
                }
                more.uid = Some(uid);
            }
            FileOption::Gid(gid) => {
                if self.gid.is_some() {
                    return None;
                }
                more.gid = Some(gid);
            }
            FileOption::Seed(seed) => {
                if !takes.seed || self.seed.is_some() {
                    return None;
                }
                more.seed = Some(seed);
            }
            FileOption::Stripe(stripe) => {
                if !takes.stripe || self.stripe.is_some() {
                    return None;
                }
                more.stripe = Some(stripe);
            }
        }
        Some(more)
    }

    /// One more word.
    pub(crate) fn with_word(self, takes: Takes, word: &[u8]) -> Option<FileOptions>
        ensures { result ≡ with_file_word takes self word.now }
    {
        self.with(takes, file_option_of(word)?)
    }
}

/// A word's option of mkfs.
#[tactic(auto, unfolding(crate::specs::Options::mkfs_option_of))]
fn mkfs_option_of(word: &[u8]) -> Option<MkfsOption>
    ensures { result ≡ mkfs_option_of word.now }
{
    if let Some(value) = value_behind("unit=", word) {
        return size(value).map(MkfsOption::Unit);
    }
    if let Some(value) = value_behind("log=", word) {
        return size(value).map(MkfsOption::Log);
    }
    if let Some(value) = value_behind("format=", word) {
        return format_of(value).map(MkfsOption::Format);
    }
    if let Some(value) = value_behind("halt=", word) {
        return halted_of(value).map(MkfsOption::Halt);
    }
    if is(word, "force") {
        return Some(MkfsOption::Force);
    }
    None
}

impl MkfsOptions {
    /// No option.
    pub(crate) fn none() -> MkfsOptions
        ensures { result ≡ no_mkfs_options }
    {
        MkfsOptions {
            unit: None,
            log: None,
            format: None,
            force: false,
            halt: None,
        }
    }

    /// One more option, where it isn't given yet.
    fn with(self, option: MkfsOption) -> Option<MkfsOptions>
        ensures { result ≡ with_mkfs_option self option }
    {
        let mut more = self;
        match option {
            MkfsOption::Unit(unit) => {
                if self.unit.is_some() {
                    return None;
                }
                more.unit = Some(unit);
            }
            MkfsOption::Log(log) => {
                if self.log.is_some() {
                    return None;
                }
                more.log = Some(log);
            }
            MkfsOption::Format(format) => {
                if self.format.is_some() {
                    return None;
                }
                more.format = Some(format);
            }
            MkfsOption::Force => {
                if self.force {
                    return None;
                }
                more.force = true;
            }
            MkfsOption::Halt(count) => {
                if self.halt.is_some() {
                    return None;
                }
                more.halt = Some(count);
            }
        }
        Some(more)
    }

    /// One more word.
    pub(crate) fn with_word(self, word: &[u8]) -> Option<MkfsOptions>
        ensures { result ≡ with_mkfs_word self word.now }
    {
        self.with(mkfs_option_of(word)?)
    }
}
