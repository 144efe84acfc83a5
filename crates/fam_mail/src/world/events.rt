//! Events of a mailbox's script, done one by one.

ghost use Rattle.std.specs.Prelude.{◌≡◌, List, true, ℕ};
ghost use Rattle.fam_base.specs.Image.{Image};
ghost use Rattle.fam_media.specs.Causes.{IsSteady};
ghost use Rattle.fam_media.specs.States.{change};
ghost use Rattle.fam_mail.specs.Calls.{MailWorldFits};
ghost use Rattle.fam_mail.specs.Follows.{IsSoundMailEvent, IsSoundMailAsk};
ghost use Rattle.fam_mail.specs.Happens.{IsCountedIn, MailEventSays, HasRunMail, MailRunsOn, mail_outcome};
ghost use Rattle.fam_mail.specs.declared.event.MailEvent.{MailEvent as Event};
ghost use Rattle.fam_mail.specs.declared.event.MailEvent.TheVariants as event;

use super::MailWorld;
use crate::ask::Ask;
use crate::event::MailEvent;
use crate::note::MailFault;
use fam_base::{HostName, OutOfMemory};
use fam_media::Media;

/// What a call comes to as an event.
fn noted<T: Drop>(called: Result<T, MailFault>) -> Result<(), OutOfMemory>
    ensures { result ≡ mail_outcome called }
{
    match called {
        Ok(_) => Ok(()),
        Err(MailFault::Refused(_)) => Ok(()),
        Err(MailFault::OutOfMemory) => Err(OutOfMemory),
    }
}

/// What is posted is a record.
fn is_sound_ask(ask: &Ask)
    ensures { IsSoundMailAsk ask.now }
{
    if let Ask::Post(record) = ask {
        let _numbers = record.numbers();
    }
}

/// So it is of an event.
fn is_sound(event: &MailEvent)
    ensures { IsSoundMailEvent event.now }
{
    match event {
        MailEvent::Begin(_, ask) => is_sound_ask(ask),
        MailEvent::Run(_, ask) => is_sound_ask(ask),
        _ => {}
    }
}

/// A host begins what it is asked for, and runs it to its end.
fn run<M: Media>(
    world: &mut MailWorld,
    media: &mut M,
    name: &HostName,
    ask: &Ask,
) -> Result<(), OutOfMemory>
    requires fits { MailWorldFits (M.size media.old) world.old }

    ensures says { MailEventSays (event.Run name.now ask.now) (change M.state media.old media.new) world.old world.new result }
    ensures fits { MailWorldFits (M.size media.new) world.new }
    ensures steady { IsSteady M.size M.state media.old media.new }
    ensures counted { M.exact ≡ true → IsCountedIn world.old.journal world.new.journal (M.state media.old).faults (M.state media.new).faults }
{
    match world.begin(name, ask) {
        Ok(()) => noted(world.finish(media, name)),
        Err(MailFault::Refused(_)) => Ok(()),
        Err(MailFault::OutOfMemory) => Err(OutOfMemory),
    }
}

/// Does an event, as its row has it.
fn do_event<M: Media>(
    world: &mut MailWorld,
    media: &mut M,
    event: &MailEvent,
) -> Result<(), OutOfMemory>
    requires fits { MailWorldFits (M.size media.old) world.old }

    ensures says { MailEventSays event.now (change M.state media.old media.new) world.old world.new result }
    ensures fits { MailWorldFits (M.size media.new) world.new }
    ensures steady { IsSteady M.size M.state media.old media.new }
    ensures counted { M.exact ≡ true → IsCountedIn world.old.journal world.new.journal (M.state media.old).faults (M.state media.new).faults }
{
    match event {
        MailEvent::Writer(name) => noted(world.host(name, true)),
        MailEvent::Reader(name) => noted(world.host(name, false)),
        MailEvent::Begin(name, ask) => noted(world.begin(name, ask)),
        MailEvent::Run(name, ask) => run(world, media, name, ask),
        MailEvent::Step(name, count) => noted(world.steps(media, name, *count)),
        MailEvent::Finish(name) => noted(world.finish(media, name)),
        MailEvent::Stop(name) => noted(world.stop(name)),
        MailEvent::Halt(name) => noted(world.halt(name)),
        MailEvent::Evict(name, line) => noted(world.evict(media, name, *line)),
        MailEvent::Leak(name, line, mask) => noted(world.leak(media, name, *line, *mask)),
        MailEvent::Fetch(name, line, mask) => noted(world.fetch(media, name, *line, *mask)),
    }
}

impl MailWorld {
    /// Does an event, and notes what comes of it. What is refused is noted too, and the run goes on.
    ///
    /// `OutOfMemory` comes where no memory was left: of the event nothing was done, or some operations of its host, whose
    /// task goes on.
    pub fn happen<M: Media>(&mut self, media: &mut M, event: &MailEvent) -> Result<(), OutOfMemory>
        requires fits { MailWorldFits (M.size media.old) self.old }

        ensures says { MailEventSays event.now (change M.state media.old media.new) self.old self.new result }

        // Where the media tells its image, a run goes on.
        ensures runs { (start : Image) (records : List (List ℕ)) (events : List Event)
            → HasRunMail start records events self.old (M.state media.old).image
            → MailRunsOn start records events event.now self.new (M.state media.new).image result }

        ensures fits { MailWorldFits (M.size media.new) self.new }
        ensures steady { IsSteady M.size M.state media.old media.new }

        // A media that counts exactly has failed once where a note tells it, and never else.
        ensures counted { M.exact ≡ true → IsCountedIn self.old.journal self.new.journal (M.state media.old).faults (M.state media.new).faults }
    {
        is_sound(event);
        do_event(self, media, event)
    }
}
