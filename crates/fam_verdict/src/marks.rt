//! The lines that told the last mark of each host's command.

use fam_base::OutOfMemory;
use fam_lines::Line;

/// The line of host `at` is the one of this number.
fn put(marks: &mut Vec<u64>, at: usize, number: u64) {
    if at < marks.len() {
        marks[at] = number;
    }
}

/// The lines of all hosts behind one of this number, which stands: of a mark, of a start, or of a host that is declared.
pub(crate) fn mark(
    marks: &mut Vec<u64>,
    line: &Option<Line>,
    number: u64,
) -> Result<(), OutOfMemory> {
    match line {
        Some(Line::Host(_, _)) => {
            if marks.push(number).is_err() {
                return Err(OutOfMemory);
            }
        }
        Some(Line::Start(host, _)) => put(marks, *host, number),
        Some(Line::Mark(host)) => put(marks, *host, number),
        _ => {}
    }
    Ok(())
}
