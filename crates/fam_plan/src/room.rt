//! Room for a new file.

ghost use Rattle.std.specs.Prelude.{◌≡◌, ◌+◌, ◌*◌, ◌^◌, ◌<◌, ◌≤◌, ◌++◌, [], ◌∷◌, length, map};
ghost use Rattle.std.specs.List.{All};
ghost use Rattle.fam_rules.specs.Decide.{extent_from, no_room_needed, room_for, simple_room, striped_room};
ghost use Rattle.fam_rules.specs.DecideLaws.{IsGoodStripe, HasGoodStripe};
ghost use Rattle.fam_base.specs.ExtentLists.{extent_limit};
ghost use Rattle.fam_plan.specs.Wishes.{GivesRoom, room_in, wish_in};

use crate::plan::Plan;
use crate::wish::Wish;
use fam_base::{Extent, Extents, MapKind, Stripe, strip_units, units_of};
use fam_rules::Refused;

/// Where a new file's bytes shall stand.
#[derive(Clone, Copy)]
pub(crate) struct Room {
    pub(crate) map: MapKind,
    pub(crate) extents: Extents,
}

/// So many units from one on.
fn extent_from(unit: u64, count: u64, start: u64) -> Extent
    requires { (start + count) * unit < 2 ^ 64 }
    ensures { result ≡ extent_from unit count start }
{
    Extent {
        offset: start * unit,
        length: count * unit,
    }
}

/// One extent.
fn one_extent(extent: Extent) -> Extents
    ensures { result ≡ extent ∷ [] }
{
    let mut extents = Extents::new();
    let _ = extents.push(extent);
    extents
}

/// Adds an extent to those that leave a place for it.
fn push_extent(extents: &mut Extents, extent: Extent)
    requires { length extents.old < extent_limit }
    ensures { extents.new ≡ extents.old ++ extent ∷ [] }
{
    let _ = extents.push(extent);
}

/// An extent of so many units from each start on.
fn extents_at(unit: u64, count: u64, starts: &[u64]) -> Extents
    requires few { length starts.now ≤ extent_limit }
    requires fit { All (λ s. (s + count) * unit < 2 ^ 64) starts.now }
    ensures { result ≡ map (extent_from unit count) starts.now }
{
    let mut extents = Extents::new();
    for start in starts {
        push_extent(&mut extents, extent_from(unit, count, *start));
    }
    extents
}

/// No bytes need no room.
fn no_room_needed() -> Room
    ensures { room_in result ≡ no_room_needed }
{
    Room {
        map: MapKind::Empty,
        extents: Extents::new(),
    }
}

impl Plan {
    /// The lowest free units in a row that hold the bytes.
    fn simple_room(&self, size: u64) -> Result<Room, Refused>
        requires { 0 < size }
        ensures { GivesRoom result (simple_room self.now.params self.now.entries size) }
    {
        let unit = self.params.unit;
        let count = units_of(size, unit);
        let Some(start) = self.ledger.used.map.find(count) else {
            return Err(Refused::NoSpace(count));
        };
        Ok(Room {
            map: MapKind::Simple,
            extents: one_extent(extent_from(unit, count, start)),
        })
    }

    /// A strip in each of the first buckets that have room, which are tried in turn from the new entry's number on.
    fn striped_room(&self, size: u64, stripe: Stripe) -> Result<Room, Refused>
        requires size { 0 < size }
        requires stripe { IsGoodStripe self.now.params stripe }
        ensures { GivesRoom result (striped_room self.now.params self.now.entries size stripe) }
    {
        let unit = self.params.unit;
        let count = strip_units(size, unit, stripe.chunk, stripe.nstrips);
        let seq = self.count();
        let Some(starts) = self
            .ledger
            .used
            .map
            .find_strips(count, stripe.nstrips, stripe.nbuckets, seq)
        else {
            return Err(Refused::NoSpace(count));
        };
        Ok(Room {
            map: MapKind::Striped {
                chunk: stripe.chunk,
            },
            extents: extents_at(unit, count, starts.as_slice()),
        })
    }

    /// Room for a wish, or the units that there is none for. A directory and a file of no bytes need none.
    #[tactic(auto, unfolding(fam_rules::specs::Decide::room_for))]
    pub(crate) fn room_for(&self, wish: &Wish) -> Result<Room, Refused>
        requires { HasGoodStripe self.now.params wish.now.stripe }
        ensures { GivesRoom result (room_for self.now.params self.now.entries (wish_in wish.now)) }
    {
        if wish.size == 0 {
            return Ok(no_room_needed());
        }
        match wish.stripe {
            None => self.simple_room(wish.size),
            Some(stripe) => self.striped_room(wish.size, stripe),
        }
    }
}
