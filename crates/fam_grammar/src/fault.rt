//! Why a line is no event.

ghost use Rattle.std.specs.Prelude.{◌≡◌};
ghost use Rattle.fam_grammar.specs.declared.fault.LineFault.TheVariants as fault;

use fam_base::OutOfMemory;

/// Why no event was read.
#[derive(Clone, Copy)]
pub enum LineFault {
    /// Line and column, both counted from 1, of the first word that doesn't fit; the column behind the line where a word
    /// is missing.
    BadLine { line: u64, column: u64 },
    /// No memory is left for the event.
    OutOfMemory,
}

impl From<OutOfMemory> for LineFault {
    ghost from_gives = { λ _ given. given ≡ fault.OutOfMemory };

    fn from(_full: OutOfMemory) -> LineFault {
        LineFault::OutOfMemory
    }
}
