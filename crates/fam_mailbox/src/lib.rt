//! A script that runs over the mailbox in a file of an image: its texts, and what it leaves.
//!
//! `specs/Mails.antt` says what is put and left, `specs/Scripts.antt` what the script is, `specs/Lookups.antt` what stands at
//! the path, and `specs/Runs.antt` how a run of events ends.
#![tactic(auto)]

mod fault;
mod file;
mod laws;
mod mail;
mod puts;
mod run;
mod texts;

pub use fault::LookFault;
pub use file::find_box;
pub use laws::a_mail_run_leaves_its_box;
pub use mail::run_mail_file;
pub use run::run_mail;
