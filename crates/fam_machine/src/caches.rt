//! Laws of whole caches.

ghost use Rattle.std.specs.Prelude.{◌≡◌, ◌≢◌, ℕ};
ghost use Rattle.fam_machine.specs.Caches.{Cache, cell_at, dirty_count, with_cell};
ghost use Rattle.fam_machine.specs.OneLine.{IsDirty};
ghost use Rattle.fam_machine.specs.declared.cell.Cell.{Cell};

/// A cache with another copy of one line has that copy there, and of the other lines what it had. Two caches
/// with the same copies are one.
pub fn copies_by_line()
    ensures here { (line : ℕ) (cell : Cell) (cache : Cache) →
        cell_at (with_cell line cell cache) line ≡ cell }
    ensures others { (line : ℕ) (cell : Cell) (cache : Cache) (other : ℕ) →
        other ≢ line → cell_at (with_cell line cell cache) other ≡ cell_at cache other }
    ensures same { (a b : Cache) → ((line : ℕ) → cell_at a line ≡ cell_at b line) → a ≡ b }
{}

/// A cache counts no dirty line exactly where it has none.
pub fn no_dirty_line()
    ensures none { (cache : Cache) → dirty_count cache ≡ 0 →
        (line : ℕ) → ¬ (IsDirty (cell_at cache line)) }
    ensures counted { (cache : Cache) → ((line : ℕ) → ¬ (IsDirty (cell_at cache line))) →
        dirty_count cache ≡ 0 }
{}
