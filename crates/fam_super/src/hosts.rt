//! What a host may be to a file system.

/// What a host is to a file system.
#[derive(Clone, Copy, Debug, PartialEq, Eq)]
pub enum Role {
    /// The host that the superblock names, and the only one that writes.
    Master,
    /// Any other host.
    Client,
}
