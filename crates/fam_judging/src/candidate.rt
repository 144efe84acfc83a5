//! A state in which hosts may be behind the lines of a history. `specs/Candidates.antt` says which one it is.

use fam_base::Entry;
use fam_settled::Log;

/// How far a running command has come by what lines tell.
#[derive(Clone, Copy, PartialEq, Eq)]
pub enum Stage {
    /// Its mark wasn't told: where it has come, it came right behind the start.
    Begun,
    /// Its mark was told.
    Marked,
    /// It has found so many entries.
    Met(u64),
    /// It has named the entry of this number.
    Named(u64),
}

/// An entry that a command named.
#[derive(Clone, Copy)]
pub struct Wrote {
    pub seq: u64,
    pub entry: Entry,
}

/// What is known of a host's last command in one state: how far it has come where it runs, how much was settled at its mark,
/// and what it named.
#[derive(Clone, Copy)]
pub struct Track {
    pub stage: Stage,
    pub floor: Option<u64>,
    pub wrote: Option<Wrote>,
}

/// What is settled.
#[derive(Drop)]
pub enum Settled {
    /// A file system with these entries.
    Log(Log),
    /// What the image that was handed in reads as, which is damaged.
    Given,
    /// No superblock: a maker halted behind its first send.
    Halted,
}

/// A state: what is settled, and what is known of each host that is declared.
#[derive(Drop)]
pub struct Candidate {
    pub settled: Settled,
    pub tracks: Vec<Track>,
}
