//! Why something is not done on a cache.

use fam_base::LineNo;

/// Why a line could not be brought.
#[derive(Clone, Copy)]
pub enum CacheFault {
    /// The media failed.
    Failed,
    /// No memory is left for one more line.
    OutOfMemory,
}

/// The media failed at this line, which a fence was to send.
#[derive(Clone, Copy)]
pub struct FenceFailed(pub LineNo);

/// Why an operation of the machine's table was not done.
#[derive(Clone, Copy)]
pub enum OperationFault {
    /// The media failed at this line.
    MediaFault(LineNo),
    /// No memory is left for one more line.
    OutOfMemory,
}
