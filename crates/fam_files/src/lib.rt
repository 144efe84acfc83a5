//! The system's files as what the program works on: an image, the files of a shelf, the folder of a shadow, and the output.
//! These are trusted edges: each is proved against its trait, and tells nothing of content.
#![tactic(auto)]

mod description;
mod file_media;
mod file_shelf;
mod folder_shade;
mod open_file;
mod std_sink;

pub use file_media::FileMedia;
pub use file_shelf::FileShelf;
pub use folder_shade::FolderShade;
pub use open_file::{open_to_read, open_to_write};
pub use std_sink::StdSink;
