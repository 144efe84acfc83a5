//! Which sizes, chunks and extents an entry may have. Each function is one part of the map rule, for any
//! numbers that 64 bits hold: sums and products that don't fit are no reason to give up.

ghost use Rattle.std.specs.Prelude.{◌≡◌, ◌==◌, ◌<◌, length};
ghost use Rattle.std.specs.List.{sum_by, list_all};
ghost use Rattle.fam_base.specs.Units.{strip_bytes};
ghost use Rattle.fam_format.specs.Params.{SoundParams};
ghost use Rattle.fam_format.specs.Slot as slots;

use fam_base::{Extent, Kind, MapKind, Params, units_of};
use fam_format::LOG_OFFSET;
use fam_tree::EntryRef;

fn is_bare(entry: &EntryRef<'_>) -> bool
    ensures { result ≡ slots.is_bare entry.now }
{
    entry.size() == 0 && entry.extents().is_empty()
}

fn is_aligned(params: &Params, extent: Extent) -> bool
    requires { SoundParams params.now }
    ensures { result ≡ slots.is_aligned params.now extent }
{
    extent.offset % params.unit == 0 && extent.length % params.unit == 0 && extent.length > 0
}

fn is_within(params: &Params, extent: Extent) -> bool
    requires { SoundParams params.now }
    ensures { result ≡ slots.is_within params.now extent }
{
    let log_end = LOG_OFFSET + params.log_length;
    let device_end = params.device / params.unit * params.unit;
    match extent.offset.checked_add(extent.length) {
        Some(end) => log_end <= extent.offset && end <= device_end,
        None => false,
    }
}

fn are_placed(params: &Params, extents: &[Extent]) -> bool
    requires { SoundParams params.now }
    ensures { result ≡ list_all (slots.is_placed params.now) extents.now }
{
    for i in 0..extents.len() {
        let extent = extents[i];
        if !is_aligned(params, extent) || !is_within(params, extent) {
            return false;
        }
    }
    true
}

fn has_extents(params: &Params, entry: &EntryRef<'_>) -> bool
    requires { SoundParams params.now }
    ensures { result ≡ slots.has_extents params.now entry.now }
{
    entry.size() > 0 && !entry.extents().is_empty() && are_placed(params, entry.extents())
}

// Sixteen lengths can add up to more than 64 bits hold.
fn total_length(extents: &[Extent]) -> u128
    ensures { result ≡ sum_by (λ x. x.length) extents.now }
{
    let mut total = 0;
    for i in 0..extents.len() {
        total += extents[i].length as u128;
    }
    total
}

fn adds_up(params: &Params, entry: &EntryRef<'_>) -> bool
    requires { SoundParams params.now }
    ensures { result ≡ slots.adds_up params.now entry.now }
{
    let rounded = units_of(entry.size(), params.unit) as u128 * params.unit as u128;
    total_length(entry.extents()) == rounded
}

// A strip can have more bytes than 64 bits hold.
fn is_strip(entry: &EntryRef<'_>, chunk: u64, extent: Extent) -> bool
    requires chunk { 0 < chunk }
    requires some { 0 < length entry.now.extents }
    ensures { result ≡
        (extent.length == strip_bytes entry.now.size chunk (length entry.now.extents)) }
{
    let rows = units_of(units_of(entry.size(), chunk), entry.extents().len() as u64);
    extent.length as u128 == rows as u128 * chunk as u128
}

fn are_strips(entry: &EntryRef<'_>, chunk: u64) -> bool
    requires { 0 < chunk }
    ensures { result ≡ list_all
        (λ x. x.length == strip_bytes entry.now.size chunk (length entry.now.extents))
        entry.now.extents }
{
    let extents = entry.extents();
    for i in 0..extents.len() {
        if !is_strip(entry, chunk, extents[i]) {
            return false;
        }
    }
    true
}

fn is_striped(params: &Params, entry: &EntryRef<'_>, chunk: u64) -> bool
    requires { SoundParams params.now }
    ensures { result ≡ slots.is_striped params.now entry.now chunk }
{
    chunk > 0 && chunk % params.unit == 0 && are_strips(entry, chunk)
}

/// Whether size, chunk and extents fit one another, the kind and the device.
#[tactic(auto, unfolding(fam_format::specs::Slot::is_map))]
pub(crate) fn is_map(params: &Params, entry: &EntryRef<'_>) -> bool
    requires { SoundParams params.now }
    ensures { result ≡ slots.is_map params.now entry.now }
{
    match (entry.kind(), entry.map()) {
        (Kind::Directory, MapKind::Empty) | (Kind::File, MapKind::Empty) => is_bare(entry),
        (Kind::Directory, MapKind::Simple) | (Kind::Directory, MapKind::Striped { .. }) => false,
        (Kind::File, MapKind::Simple) => has_extents(params, entry) && adds_up(params, entry),
        (Kind::File, MapKind::Striped { chunk }) => {
            has_extents(params, entry) && is_striped(params, entry, chunk)
        }
    }
}
