//! The top call: all that the program does, over any media, shelf and sink. The program itself hands it the real ones.
#![tactic(auto)]

mod dups;
mod fresh;
mod mails;
mod shadows;
mod top;
mod words;

pub use dups::{dup_of, famfs_dup};
pub use mails::{famfs_mail, mail_of};
pub use shadows::{famfs_shadow, shadow_of};
pub use top::famfs;
pub use words::image_of;
