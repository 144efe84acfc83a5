//! Laws of operations on all words of a line.

ghost use Rattle.std.specs.Prelude.{◌≡◌, ◌∷◌, ◌++◌, ℕ, List, []};
ghost use Rattle.fam_base.specs.Image.{eight, line_at, with_line};
ghost use Rattle.fam_machine.specs.Caches.{cell_at, with_cell};
ghost use Rattle.fam_machine.specs.OneLine.{current};
ghost use Rattle.fam_machine.specs.Operations.{Machine, operated, operated_all, load_ops, store_ops, line_no};
ghost use Rattle.fam_machine.specs.declared.cell.Cell.TheVariants.{Absent, Clean};
ghost use Rattle.fam_machine.specs.declared.op.Op.TheVariants.{Invalidate};

/// A line that is dropped, and of which all words are loaded then, is clean, with memory's words.
pub fn a_line_is_loaded()
    ensures { (line : ℕ) (m : Machine) → operated_all (load_ops line 8) m
        ≡ record (operated (Invalidate (line_no line)) m) {
          cache = with_cell line (Clean (line_at (operated (Invalidate (line_no line)) m).image line)) m.cache;
        } }
{}

/// A line of eight words, of which all are stored, and which is sent and dropped then, stands in memory with
/// these words, and the cache has no copy of it.
pub fn a_line_is_put()
    ensures { (line : ℕ) (words : List ℕ) (m : Machine)
        → eight (current (line_at m.image line) (cell_at m.cache line)) ≡ current (line_at m.image line) (cell_at m.cache line)
        → operated_all (store_ops line words ++ Invalidate (line_no line) ∷ []) m
        ≡ record { image = with_line line words m.image; cache = with_cell line Absent m.cache } }
{}
