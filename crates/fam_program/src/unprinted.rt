//! Events that are run with nothing put of them.

ghost use Rattle.std.specs.Prelude.{◌≡◌, ◌∷◌, [], Some};
ghost use Rattle.fam_grammar.specs.Sound.{IsSoundAsk};
ghost use Rattle.fam_journal.specs.declared.event.Event.TheVariants as event;
ghost use Rattle.fam_media.specs.Causes.{IsShelfSteady, IsSteady};
ghost use Rattle.fam_media.specs.Outside.{IfModelled};
ghost use Rattle.fam_media.specs.States.{change, SinkChange};
ghost use Rattle.fam_journal.specs.View.{empty_world};
ghost use Rattle.fam_program.specs.Far.{AreSoundEvents};
ghost use Rattle.fam_program.specs.Unprinted.{AreShotEvents, IsOneRun, MayLack, ShotEnded};
ghost use Rattle.fam_program.specs.Runs.{outside_of};

use crate::script::is_image;
use fam_base::HostName;
use fam_events::{EventFault, happen, run_last};
use fam_journal::{Ask, Event};
use fam_media::{Media, Shelf};
use fam_script::last_stops;
use fam_world::World;
use std::alloc::Global;
use uuid::Uuid;

/// Runs events in their order on a media, with sources from a shelf, up to the first note that stops them, as the making
/// of directories along a path stops. The world has no host and no note before, and keeps the notes of the run.
///
/// The run ends early where the media fails in a mkfs, a source can't be read to its end, or no memory is left.
pub(crate) fn run_until_stop<M: Media, S: Shelf>(
    alloc: Global,
    world: &mut World,
    events: Vec<Event>,
    media: &mut M,
    shelf: &mut S,
) -> Result<(), EventFault>
    requires fresh { world.old ≡ empty_world }
    requires sound { AreSoundEvents events.items }
    requires shot { AreShotEvents events.items }
    ensures ended { (sink : SinkChange) → ShotEnded result (outside_of M.size M.state media.old media.new
        (change S.state shelf.old shelf.new) sink) events.items world.new.journal }

    // One command that finds no memory leaves the image, and so does one for whose line there may be none.
    ensures same { IsOneRun events.items → MayLack result world.new.journal → IfModelled (M.state media.old).image (λ start.
        IfModelled (S.state shelf.old).files (λ files. (M.state media.new).image ≡ Some start)) }

    ensures steady { IsSteady M.size M.state media.old media.new }
    ensures shelf { IsShelfSteady (S.state shelf.old) (S.state shelf.new) }
{
    is_image(media);
    let mut copied = 0;
    'events: for event in events {
        match happen(alloc, world, media, shelf, &mut copied, event) {
            Ok(()) => {}
            Err(fault) => return Err(fault),
        }
        if last_stops(world.journal()) {
            return Ok(());
        }
    }
    Ok(())
}

/// As `run_until_stop`, of one host that is declared and runs one command. Behind it of the world its journal alone is looked
/// at: where the command only reads, the host forgets lines on its way.
pub(crate) fn run_alone<M: Media, S: Shelf>(
    alloc: Global,
    world: &mut World,
    name: HostName,
    me: Uuid,
    what: Ask,
    media: &mut M,
    shelf: &mut S,
) -> Result<(), EventFault>
    requires fresh { world.old ≡ empty_world }
    requires sound { IsSoundAsk what }
    ensures ended { (sink : SinkChange) → ShotEnded result (outside_of M.size M.state media.old media.new
        (change S.state shelf.old shelf.new) sink) (event.Host name me ∷ event.Run name what ∷ []) world.new.journal }

    // A command that finds no memory leaves the image, and so does one for whose line there may be none.
    ensures same { MayLack result world.new.journal → IfModelled (M.state media.old).image (λ start.
        IfModelled (S.state shelf.old).files (λ files. (M.state media.new).image ≡ Some start)) }

    ensures steady { IsSteady M.size M.state media.old media.new }
    ensures shelf { IsShelfSteady (S.state shelf.old) (S.state shelf.new) }
{
    is_image(media);
    let mut copied = 0;
    match happen(
        alloc,
        world,
        media,
        shelf,
        &mut copied,
        Event::Host(name, me),
    ) {
        Ok(()) => {}
        Err(fault) => return Err(fault),
    }
    if last_stops(world.journal()) {
        return Ok(());
    }
    run_last(alloc, world, media, shelf, &mut copied, name, what)
}
