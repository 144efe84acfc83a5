//! The first words of events and of commands. `specs/Keywords.antt` spells them.

ghost use Rattle.std.specs.Prelude.{◌≡◌};
ghost use Rattle.std.specs.Str.{bytes_eq};
ghost use Rattle.fam_grammar.specs.Keywords.{event_word, command_word};
ghost use Rattle.fam_grammar.specs.Meanings.{first_meaning};

/// What an event does.
#[derive(Clone, Copy)]
pub(crate) enum EventWord {
    Host,
    Mkfs,
    Begin,
    Run,
    Step,
    Finish,
    Stop,
    Halt,
    Umount,
    Evict,
    Leak,
    Fetch,
}

/// What a host is told to do.
#[derive(Clone, Copy)]
pub enum CommandWord {
    Logplay,
    Mount,
    Fsck,
    Mkdir,
    Creat,
    Cp,
    Verify,
    Read,
    Check,
}

/// Whether a word is this one.
pub(crate) fn is(word: &[u8], wanted: &str) -> bool
    ensures { result ≡ bytes_eq word.now wanted.now }
{
    word == wanted.as_bytes()
}

/// A word, and what it means.
pub struct Keyword<T> {
    pub text: &'static str,
    pub means: T,
}

/// The words of events.
const EVENTS: [Keyword<EventWord>; 12] = [
    Keyword {
        text: "host",
        means: EventWord::Host,
    },
    Keyword {
        text: "mkfs",
        means: EventWord::Mkfs,
    },
    Keyword {
        text: "begin",
        means: EventWord::Begin,
    },
    Keyword {
        text: "run",
        means: EventWord::Run,
    },
    Keyword {
        text: "step",
        means: EventWord::Step,
    },
    Keyword {
        text: "finish",
        means: EventWord::Finish,
    },
    Keyword {
        text: "stop",
        means: EventWord::Stop,
    },
    Keyword {
        text: "halt",
        means: EventWord::Halt,
    },
    Keyword {
        text: "umount",
        means: EventWord::Umount,
    },
    Keyword {
        text: "evict",
        means: EventWord::Evict,
    },
    Keyword {
        text: "leak",
        means: EventWord::Leak,
    },
    Keyword {
        text: "fetch",
        means: EventWord::Fetch,
    },
];

/// The words of commands.
const COMMANDS: [Keyword<CommandWord>; 9] = [
    Keyword {
        text: "logplay",
        means: CommandWord::Logplay,
    },
    Keyword {
        text: "mount",
        means: CommandWord::Mount,
    },
    Keyword {
        text: "fsck",
        means: CommandWord::Fsck,
    },
    Keyword {
        text: "mkdir",
        means: CommandWord::Mkdir,
    },
    Keyword {
        text: "creat",
        means: CommandWord::Creat,
    },
    Keyword {
        text: "cp",
        means: CommandWord::Cp,
    },
    Keyword {
        text: "verify",
        means: CommandWord::Verify,
    },
    Keyword {
        text: "read",
        means: CommandWord::Read,
    },
    Keyword {
        text: "check",
        means: CommandWord::Check,
    },
];

/// What the first of these keywords that a word is means.
pub fn meaning<T: Copy>(word: &[u8], keywords: &[Keyword<T>]) -> Option<T>
    ensures { result ≡ first_meaning word.now keywords.now }
{
    for keyword in keywords {
        if is(word, keyword.text) {
            return Some(keyword.means);
        }
    }
    None
}

/// The event of this name.
#[tactic(auto, unfolding(crate::specs::Keywords::event_word))]
pub(crate) fn event_word(word: &[u8]) -> Option<EventWord>
    ensures { result ≡ event_word word.now }
{
    meaning(word, &EVENTS)
}

/// The command of this name.
#[tactic(auto, unfolding(crate::specs::Keywords::command_word))]
pub(crate) fn command_word(word: &[u8]) -> Option<CommandWord>
    ensures { result ≡ command_word word.now }
{
    meaning(word, &COMMANDS)
}
