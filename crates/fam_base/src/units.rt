//! Counts of allocation units. Sizes, chunks and units are in bytes.

ghost use Rattle.std.specs.Prelude.{◌≡◌, ◌+◌, ◌*◌, ◌^◌, ◌-◌, ◌/◌, ◌%◌, ◌<◌, ◌≤◌, ℕ, min};
ghost use Rattle.std.specs.Int.{div_ceil};
ghost use Rattle.fam_base.specs.Units.{least_unit, strip_bytes};

/// How many units hold `size` bytes: `size / unit`, rounded up.
pub fn units_of(size: u64, unit: u64) -> u64
    requires { 0 < unit }
    ensures { result ≡ div_ceil size unit }
{
    size.div_ceil(unit)
}

/// Some units hold `size` bytes, and one unit less doesn't.
pub fn units_hold_the_size()
    ensures enough { (size unit : ℕ) → 0 < unit → size ≤ div_ceil size unit * unit }
    ensures least { (size unit : ℕ) → 0 < unit → div_ceil size unit * unit < size + unit }
{}

/// The units of one strip of a file of `size` bytes that is striped over `nstrips` strips by chunks of
/// `chunk` bytes: the whole chunks dealt to a strip, counted in units. 2 ^ 64 - 1 stands for any larger
/// number, which no file of a unit of at least 4,096 bytes has.
pub fn strip_units(size: u64, unit: u64, chunk: u64, nstrips: u64) -> u64
    requires unit { 0 < unit }
    requires chunk { 0 < chunk }
    requires whole { chunk % unit ≡ 0 }
    requires strips { 0 < nstrips }

    ensures value { result ≡ min (strip_bytes size chunk nstrips / unit) (2 ^ 64 - 1) }
    ensures exact { least_unit ≤ unit → result ≡ strip_bytes size chunk nstrips / unit }
{
    let rows = units_of(units_of(size, chunk), nstrips);
    rows.saturating_mul(chunk / unit)
}

/// A strip has fewer than 2 ^ 53 units where a unit has at least 4,096 bytes.
pub fn strips_are_small()
    ensures { (size unit chunk nstrips : ℕ) → size < 2 ^ 64 → chunk < 2 ^ 64 → least_unit ≤ unit
        → 0 < chunk → 0 < nstrips → strip_bytes size chunk nstrips / unit < 2 ^ 53 }
{}
