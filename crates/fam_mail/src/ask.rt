//! What a host is asked to do with the box.

use crate::record::Record;

/// What a host is asked to do with the box.
#[derive(Clone, Copy)]
pub enum Ask {
    /// To add a record behind those that are counted.
    Post(Record),
    /// To read all records that are counted.
    Take,
}
