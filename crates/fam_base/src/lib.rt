//! The types that all layers of the famfs tools speak of: lines of the shared memory, paths, extents,
//! entries of the log, what the superblock says, and the commands of hosts.
//!
//! A contract sees a `Path`, a `HostName`, a `NameText`, a `ByteText` and a `SharedBytes` as a list of bytes, an
//! `Extents` as a list of at most 16 extents, and a `SharedEntries` as a list of entries. `specs/` has the definitions.
#![tactic(auto)]

mod boxed;
mod byte_text;
mod cmd;
mod entry;
mod escapes;
mod extents;
mod field_order;
mod host_name;
mod image;
mod line;
mod mask;
mod name_text;
mod path;
mod path_order;
mod shared;
mod units;

pub use boxed::Boxed;
pub use byte_text::ByteText;
pub use cmd::{Attr, Cmd, Content, Stripe};
pub use entry::{Entry, Kind, MapKind, Params};
pub use escapes::{escape, hex_digit, names_differ_in_print, print_is_visible, put_bytes};
pub use extents::{EXTENT_LIMIT, Extent, Extents};
pub use host_name::{BadName, HostName, NAME_LIMIT};
pub use image::{line_is_written, mask_of_none_or_all, writes_keep_the_form};
pub use line::{Line, LineNo, Mask, OutOfMemory};
pub use mask::masked_line;
pub use name_text::NameText;
pub use path::{BadPath, PATH_LIMIT, Path, parent_is_the_prefix};
pub use shared::{SharedBytes, SharedEntries};
pub use units::{strip_units, strips_are_small, units_hold_the_size, units_of};
