//! A sink: a place for output.

ghost use Rattle.std.specs.Prelude.{◌≡◌, OnOk, OnErr};
ghost use Rattle.std.specs.Option.{option_map};
ghost use Rattle.fam_media.specs.Causes.{HasCause};
ghost use Rattle.fam_media.specs.Outside.{IsPartlyPut, with_piece};
ghost use Rattle.fam_media.specs.States.{SinkState};

use crate::media::Failed;

/// A place for output.
pub trait Sink {
    /// The bytes put so far, where they are modelled, and how often a put failed.
    ghost state: { Self → SinkState };

    /// Appends a piece. Where the put fails a prefix of the piece may stand there.
    fn put(&mut self, piece: &[u8]) -> Result<(), Failed>
        ensures put { OnOk result ((state self.new).bytes ≡ option_map (with_piece piece.now) (state self.old).bytes) }
        ensures torn { OnErr result (IsPartlyPut (state self.old).bytes (state self.new).bytes piece.now) }
        ensures cause { HasCause (state self.old).faults (state self.new).faults result };
}
