//! The program's commands, as simple commands of `clap`.

ghost use Rattle.std.specs.Prelude.{◌≡◌, fold};
ghost use Rattle.fam_words.specs.Arguments.{with_argument};
ghost use Rattle.fam_words.specs.Calls.{app_named};
ghost use Rattle.fam_words.specs.Simple.{plain_app};
ghost use Rattle.fam_words.specs.Dups.{dup_app};
ghost use Rattle.fam_words.specs.Judges.{judge_app};
ghost use Rattle.fam_words.specs.Mails.{mail_app};
ghost use Rattle.fam_words.specs.Shadows.{shadow_app};

use crate::invocations::Name;
use crate::simple::Argument;

/// The arguments of the command mkfs.
const MKFS: [Argument; 7] = [
    Argument::Word("image"),
    Argument::Short("unit", 'u', false),
    Argument::Short("loglen", 'l', false),
    Argument::Flag("force", 'f'),
    Argument::Long("format", false),
    Argument::Long("uuid", false),
    Argument::Long("system", false),
];

/// The arguments of the command dup.
const DUP: [Argument; 8] = [
    Argument::Word("from"),
    Argument::Word("to"),
    Argument::Short("unit", 'u', false),
    Argument::Short("loglen", 'l', false),
    Argument::Flag("force", 'f'),
    Argument::Long("format", false),
    Argument::Long("uuid", false),
    Argument::Long("system", false),
];

/// The arguments of the command logplay.
const LOGPLAY: [Argument; 2] = [Argument::Word("image"), Argument::Long("system", false)];

/// The arguments of the command logplay with a folder for the tree's shadow.
const SHADOW: [Argument; 3] = [
    Argument::Word("image"),
    Argument::Long("shadow", true),
    Argument::Long("system", false),
];

/// The arguments of the command mkdir.
const MKDIR: [Argument; 7] = [
    Argument::Word("image"),
    Argument::Word("path"),
    Argument::Flag("parents", 'p'),
    Argument::Short("mode", 'm', false),
    Argument::Short("uid", 'u', false),
    Argument::Short("gid", 'g', false),
    Argument::Long("system", false),
];

/// The arguments of the command creat.
const CREAT: [Argument; 11] = [
    Argument::Word("image"),
    Argument::Word("path"),
    Argument::Short("size", 's', true),
    Argument::Short("seed", 'S', false),
    Argument::Short("mode", 'm', false),
    Argument::Short("uid", 'u', false),
    Argument::Short("gid", 'g', false),
    Argument::Short("nstrips", 'N', false),
    Argument::Short("nbuckets", 'B', false),
    Argument::Short("chunksize", 'C', false),
    Argument::Long("system", false),
];

/// The arguments of the command cp.
const CP: [Argument; 10] = [
    Argument::Word("image"),
    Argument::Word("source"),
    Argument::Word("path"),
    Argument::Short("mode", 'm', false),
    Argument::Short("uid", 'u', false),
    Argument::Short("gid", 'g', false),
    Argument::Short("nstrips", 'N', false),
    Argument::Short("nbuckets", 'B', false),
    Argument::Short("chunksize", 'C', false),
    Argument::Long("system", false),
];

/// The arguments of the command verify.
const VERIFY: [Argument; 5] = [
    Argument::Word("image"),
    Argument::Word("path"),
    Argument::Short("seed", 'S', false),
    Argument::Long("source", false),
    Argument::Long("system", false),
];

/// The arguments of the command read.
const READ: [Argument; 5] = [
    Argument::Word("image"),
    Argument::Word("path"),
    Argument::Word("offset"),
    Argument::Word("count"),
    Argument::Long("system", false),
];

/// The arguments of the command check.
const CHECK: [Argument; 3] = [
    Argument::Word("image"),
    Argument::Word("listing"),
    Argument::Long("system", false),
];

/// The arguments of the command fsck.
const FSCK: [Argument; 2] = [Argument::Word("image"), Argument::Long("system", false)];

/// The arguments of the command script.
const SCRIPT: [Argument; 2] = [Argument::Word("file"), Argument::Word("image")];

/// The arguments of the command mail.
const MAIL: [Argument; 3] = [
    Argument::Word("file"),
    Argument::Word("image"),
    Argument::Word("path"),
];

/// The arguments of a history that is judged.
const JUDGE: [Argument; 2] = [Argument::Word("history"), Argument::Optional("image")];

/// The arguments of the command storm.
const STORM: [Argument; 4] = [
    Argument::Word("seed"),
    Argument::Word("size"),
    Argument::Word("image"),
    Argument::Flag("print", 'p'),
];

/// The command dup: its word, and its arguments.
#[tactic(auto, unfolding(crate::specs::Arguments::with_argument, crate::specs::Dups::dup_app))]
pub(crate) fn dup<'a>() -> (&'a str, &'a [Argument])
    ensures { fold with_argument (plain_app result.0.now) result.1.now ≡ dup_app }
{
    ("dup", &DUP)
}

/// The command logplay with a folder for the tree's shadow: its word, and its arguments.
#[tactic(auto, unfolding(crate::specs::Arguments::with_argument, crate::specs::Shadows::shadow_app))]
pub(crate) fn shadow<'a>() -> (&'a str, &'a [Argument])
    ensures { fold with_argument (plain_app result.0.now) result.1.now ≡ shadow_app }
{
    ("logplay", &SHADOW)
}

/// The command mail: its word, and its arguments.
#[tactic(auto, unfolding(crate::specs::Arguments::with_argument, crate::specs::Mails::mail_app))]
pub(crate) fn mail<'a>() -> (&'a str, &'a [Argument])
    ensures { fold with_argument (plain_app result.0.now) result.1.now ≡ mail_app }
{
    ("mail", &MAIL)
}

/// A history that is judged: the program's name, and its arguments.
#[tactic(auto, unfolding(crate::specs::Arguments::with_argument, crate::specs::Judges::judge_app))]
pub(crate) fn judge<'a>() -> (&'a str, &'a [Argument])
    ensures { fold with_argument (plain_app result.0.now) result.1.now ≡ judge_app }
{
    ("famfs-judge", &JUDGE)
}

/// The word that names a command, and its arguments.
#[tactic(auto, unfolding(crate::specs::Arguments::with_argument, crate::specs::Apps::mkfs_app, crate::specs::Apps::logplay_app, crate::specs::Apps::mkdir_app, crate::specs::Apps::creat_app, crate::specs::Apps::cp_app, crate::specs::Apps::verify_app, crate::specs::Apps::read_app, crate::specs::Apps::check_app, crate::specs::Apps::fsck_app, crate::specs::Apps::script_app, crate::specs::Apps::storm_app))]
pub(crate) fn words_of<'a>(name: Name) -> (&'a str, &'a [Argument])
    ensures { fold with_argument (plain_app result.0.now) result.1.now ≡ app_named name }
{
    match name {
        Name::Mkfs => ("mkfs", &MKFS),
        Name::Logplay => ("logplay", &LOGPLAY),
        Name::Mkdir => ("mkdir", &MKDIR),
        Name::Creat => ("creat", &CREAT),
        Name::Cp => ("cp", &CP),
        Name::Verify => ("verify", &VERIFY),
        Name::Read => ("read", &READ),
        Name::Check => ("check", &CHECK),
        Name::Fsck => ("fsck", &FSCK),
        Name::Script => ("script", &SCRIPT),
        Name::Storm => ("storm", &STORM),
    }
}
