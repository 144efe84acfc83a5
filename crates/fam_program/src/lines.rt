//! Lines that end a run early. fam_outcomes' `specs/Programs.antt` has them.

ghost use Rattle.std.specs.Prelude.{◌≡◌, IfOk};
ghost use Rattle.fam_outcomes.specs.Programs.{source_line};
ghost use Rattle.fam_sources.specs.Sourced.{end_of};

use fam_base::OutOfMemory;
use fam_script::{line, line_of};
use fam_sources::SourceEnd;
use std::alloc::Global;

/// What is printed where the words are no command.
pub(crate) const USAGE: &str =
    "usage: famfs mkfs|logplay|mkdir|creat|cp|verify|read|check|fsck|script|storm WORDS\n";

/// What is printed where no memory is left.
pub(crate) const MEMORY: &str = "out of memory\n";

/// The line that says how the reading of a source ended early.
pub(crate) fn end_line(alloc: Global, end: SourceEnd) -> Result<Vec<u8>, OutOfMemory>
    ensures { IfOk result (λ bytes. bytes.items ≡ source_line (end_of end)) }
{
    match end {
        SourceEnd::Faulted => line(alloc, "source fault"),
        SourceEnd::Short { size, got } => {
            line_of(alloc, format!(in alloc; "short source {size} {got}"))
        }
    }
}
