//! The machine that the tools run on: hosts with caches of their own over one shared memory.
//!
//! A host's cache has a copy of some lines. `specs/OneLine.antt` says what each operation makes of memory's words of
//! one line and of the host's copy, `specs/Caches.antt` says the same of a whole cache and a whole image, and
//! `specs/Moves.antt` cuts each operation into the moves that a cache may make by itself. `specs/HostMoves.antt` has
//! what a cache does by itself, `specs/Cuts.antt` what is left where the media fails in a row of operations, and
//! `specs/Mkfs.antt` the row that makes a file system.
#![tactic(auto)]

mod caches;
mod cell;
mod failures;
mod lines;
mod mkfs;
mod op;
mod request;
mod transfers;
mod uuids;

pub use caches::{copies_by_line, no_dirty_line};
pub use cell::Cell;
pub use failures::an_operation_fails_at_its_line;
pub use lines::{a_line_is_loaded, a_line_is_put};
pub use mkfs::{
    a_cut_mkfs_is_old_none_or_new, a_file_system_is_made, a_halted_mkfs_leaves_its_first_lines,
};
pub use op::Op;
pub use request::MkfsRequest;
pub use transfers::{
    bring_transfers, failures_tear_line, fetch_transfers, leak_transfers, own_moves_transfer,
    send_transfers,
};
pub use uuids::is_uuid;
