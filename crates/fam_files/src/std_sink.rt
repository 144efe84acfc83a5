//! The standard output as a sink. This is a trusted edge: what a reader of the output gets, no clause tells.

ghost use Rattle.std.specs.Prelude.{◌≡◌, None};

use fam_media::{Failed, Sink};
use std::io::{Stdout, Write};

/// The standard output. It models nothing of the bytes put, and counts its faults.
#[derive(Drop)]
pub struct StdSink {
    out: Stdout,
    faults: u64,
}

impl StdSink {
    /// The output with no faults counted.
    pub fn new(out: Stdout) -> StdSink
        ensures { (⟦<StdSink as Sink>⟧.state result).faults ≡ 0 }
    {
        StdSink { out, faults: 0 }
    }
}

impl Sink for StdSink {
    ghost state = { λ sink. record { bytes = None; faults = sink.faults } };

    fn put(&mut self, piece: &[u8]) -> Result<(), Failed> {
        if self.out.write_all(piece).is_ok() && self.out.flush().is_ok() {
            return Ok(());
        }
        self.faults = self.faults.saturating_add(1);
        Err(Failed)
    }
}
