//! The first words of events and of asks. `specs/Keywords.antt` spells them.

ghost use Rattle.std.specs.Prelude.{◌≡◌};
ghost use Rattle.std.specs.Str.{bytes_eq};
ghost use Rattle.fam_mail_script.specs.Keywords.{mail_ask_word, mail_word};

use fam_grammar::{Keyword, meaning};

/// What an event does.
#[derive(Clone, Copy)]
pub(crate) enum EventWord {
    Writer,
    Reader,
    Begin,
    Run,
    Step,
    Finish,
    Stop,
    Halt,
    Evict,
    Leak,
    Fetch,
}

/// What a host is asked to do.
#[derive(Clone, Copy)]
pub(crate) enum AskWord {
    Take,
    Post,
}

/// Whether a word is this one.
fn is(word: &[u8], wanted: &str) -> bool
    ensures { result ≡ bytes_eq word.now wanted.now }
{
    word == wanted.as_bytes()
}

/// The words of events.
const EVENTS: [Keyword<EventWord>; 11] = [
    Keyword {
        text: "writer",
        means: EventWord::Writer,
    },
    Keyword {
        text: "reader",
        means: EventWord::Reader,
    },
    Keyword {
        text: "begin",
        means: EventWord::Begin,
    },
    Keyword {
        text: "run",
        means: EventWord::Run,
    },
    Keyword {
        text: "step",
        means: EventWord::Step,
    },
    Keyword {
        text: "finish",
        means: EventWord::Finish,
    },
    Keyword {
        text: "stop",
        means: EventWord::Stop,
    },
    Keyword {
        text: "halt",
        means: EventWord::Halt,
    },
    Keyword {
        text: "evict",
        means: EventWord::Evict,
    },
    Keyword {
        text: "leak",
        means: EventWord::Leak,
    },
    Keyword {
        text: "fetch",
        means: EventWord::Fetch,
    },
];

/// The event of this name.
#[tactic(auto, unfolding(crate::specs::Keywords::mail_word))]
pub(crate) fn event_word(word: &[u8]) -> Option<EventWord>
    ensures { result ≡ mail_word word.now }
{
    meaning(word, &EVENTS)
}

/// The ask of this name.
#[tactic(auto, unfolding(crate::specs::Keywords::mail_ask_word))]
pub(crate) fn ask_word(word: &[u8]) -> Option<AskWord>
    ensures { result ≡ mail_ask_word word.now }
{
    if is(word, "take") {
        Some(AskWord::Take)
    } else if is(word, "post") {
        Some(AskWord::Post)
    } else {
        None
    }
}
