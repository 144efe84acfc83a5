//! What a damaged image that was handed in tells.

use fam_base::Params;
use fam_format::{LogFault, Reason, SuperFault};
use fam_rules::Report;

/// Why an image has no history.
#[derive(Clone, Copy)]
pub enum Damage {
    /// So few lines that there is no gate.
    FewLines(u64),
    NoSuperblock(SuperFault),
    BadHeader(LogFault),
    BadSlot(u64, Reason),
}

/// A damaged image: how it reads, what its gate says, the parameters of its superblock where that is sound, and what a check of the
/// file system finds.
#[derive(Clone, Copy)]
pub struct GivenImage {
    pub damage: Damage,
    pub gate: u64,
    pub params: Option<Params>,
    pub report: Report,
}
