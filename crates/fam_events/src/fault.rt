//! Why a run ends with an event.

use fam_sources::SourceEnd;

/// Why nothing goes on behind an event.
#[derive(Clone, Copy)]
pub enum EventFault {
    /// The media failed while a file system was made. The journal says so.
    MkfsFailed,
    /// The reading of the event's source ended early. Nothing of the event was done.
    SourceEnded(SourceEnd),
    /// No memory was left. Of the event nothing was done, or some operations of its host, whose command has not answered.
    OutOfMemory,
}
