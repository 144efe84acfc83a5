//! Events that make the directories along a path.

ghost use Rattle.std.specs.Prelude.{◌≡◌, ◌++◌, ◌∷◌, [], IfOk, OnOk};
ghost use Rattle.fam_journal.specs.declared.event.Event.TheVariants as event;
ghost use Rattle.fam_outcomes.specs.Programs.{MakesParents, shot_events};

use fam_base::{Attr, Boxed, Cmd, HostName, OutOfMemory, Path};
use fam_journal::{Ask, Event};
use fam_script::prefixes;
use std::alloc::Global;
use uuid::Uuid;

/// Adds an event.
fn add(event: Event, into: &mut Vec<Event>) -> Result<(), OutOfMemory>
    ensures { OnOk result (into.new.items ≡ into.old.items ++ event ∷ []) }
{
    match into.push(event) {
        Ok(()) => Ok(()),
        Err(_) => Err(OutOfMemory),
    }
}

/// A host is declared, and makes each directory along a path, the shortest path first.
pub(crate) fn parent_events(
    alloc: Global,
    name: HostName,
    me: Uuid,
    path: &Path,
    attr: Attr,
) -> Result<Vec<Event>, OutOfMemory>
    ensures { IfOk result (λ events. events.items ≡ event.Host name me ∷ shot_events name (MakesParents path.now attr)) }
{
    let paths = prefixes(alloc, path)?;
    let mut events = Vec::new(alloc);
    add(Event::Host(name, me), &mut events)?;
    'paths: for directory in paths {
        let making = Cmd::Mkdir {
            path: directory,
            attr,
        };
        let asked = Boxed::new(alloc, Ask::Plain(making))?;
        add(Event::Run(name, asked), &mut events)?;
    }
    Ok(events)
}
