//! Statuses of the program.

ghost use Rattle.std.specs.Prelude.{◌≡◌};
ghost use Rattle.fam_outcomes.specs.Statuses.{status_number};

/// How a call of the program ended.
#[derive(Clone, Copy, Debug, PartialEq, Eq)]
pub enum Status {
    /// The command did what it was asked for. A script: it was run to its end, nothing was refused, and every answer
    /// alone has this status.
    Done,
    /// The command was refused, and changed nothing; or what it asks for isn't there. A script: it was run to its end,
    /// and something was refused or has another status alone; or there is no such script.
    Refused,
    /// The words are no command.
    Usage,
    /// A line of the script is bad, or the script is too long. No event was run.
    BadScript,
    /// The image could not be read or written. A script: while a file system was made, which ended it.
    MediaFault,
    /// A source could not be read, or gave fewer bytes than its size promised.
    SourceFault,
    /// The output could not be written. This stands before every other status.
    SinkFault,
    /// No memory was left.
    OutOfMemory,
    /// The image is damaged, or is none of this program's; or what was compared differs.
    Damaged,
    /// The folder for a tree's shadow could not be read or written.
    ShadeFault,
}

impl Status {
    /// The number with which the process ends.
    pub fn number(self) -> u8
        ensures { result ≡ status_number self }
    {
        match self {
            Status::Done => 0,
            Status::Refused => 1,
            Status::Usage => 2,
            Status::BadScript => 3,
            Status::MediaFault => 4,
            Status::SourceFault => 5,
            Status::SinkFault => 6,
            Status::OutOfMemory => 7,
            Status::Damaged => 8,
            Status::ShadeFault => 10,
        }
    }
}
