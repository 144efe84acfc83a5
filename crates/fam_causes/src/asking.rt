//! Which notes a command may give at all. `specs/Asking.antt` has the table.

ghost use Rattle.std.specs.Prelude.{◌≡◌};
ghost use Rattle.fam_causes.specs.Asking.{asking_of, asking_plain, asks_append, asks_check, asks_file, asks_mount, asks_read, asks_survey, asks_tree, asks_verify, may_be_answered, may_give};

use fam_base::Cmd;
use fam_history::ToldCommand;
use fam_lines::{HostAnswer, Line};

/// What a command asks for.
#[derive(Clone, Copy)]
pub(crate) enum Asking {
    Tree,
    Mount,
    Append,
    Verify,
    Read,
    Check,
    /// A check of the file system.
    Survey,
}

/// What a command asks for that is told as a whole.
fn asking_plain(cmd: &Cmd) -> Asking
    ensures { result ≡ asking_plain cmd.now }
{
    match cmd {
        Cmd::Logplay => Asking::Tree,
        Cmd::Mount => Asking::Mount,
        Cmd::Mkdir { .. } => Asking::Append,
        Cmd::Creat { .. } => Asking::Append,
        Cmd::Cp { .. } => Asking::Append,
        Cmd::Verify { .. } => Asking::Verify,
        Cmd::Read { .. } => Asking::Read,
        Cmd::Check { .. } => Asking::Check,
        Cmd::Fsck => Asking::Survey,
    }
}

/// What a command asks for.
pub(crate) fn asking_of(cmd: &ToldCommand) -> Asking
    ensures { result ≡ asking_of cmd.now }
{
    match cmd {
        ToldCommand::Plain(cmd) => asking_plain(cmd),
        ToldCommand::Cp { .. } => Asking::Append,
        ToldCommand::VerifySource { .. } => Asking::Verify,
        ToldCommand::Check { .. } => Asking::Check,
    }
}

impl Asking {
    fn is_tree(self) -> bool
        ensures { result ≡ asks_tree self }
    {
        match self {
            Asking::Tree => true,
            _ => false,
        }
    }

    fn is_mount(self) -> bool
        ensures { result ≡ asks_mount self }
    {
        match self {
            Asking::Mount => true,
            _ => false,
        }
    }

    fn is_append(self) -> bool
        ensures { result ≡ asks_append self }
    {
        match self {
            Asking::Append => true,
            _ => false,
        }
    }

    fn is_verify(self) -> bool
        ensures { result ≡ asks_verify self }
    {
        match self {
            Asking::Verify => true,
            _ => false,
        }
    }

    fn is_read(self) -> bool
        ensures { result ≡ asks_read self }
    {
        match self {
            Asking::Read => true,
            _ => false,
        }
    }

    fn is_check(self) -> bool
        ensures { result ≡ asks_check self }
    {
        match self {
            Asking::Check => true,
            _ => false,
        }
    }

    pub(crate) fn is_survey(self) -> bool
        ensures { result ≡ asks_survey self }
    {
        match self {
            Asking::Survey => true,
            _ => false,
        }
    }

    /// Whether it asks for something of a file.
    fn is_of_file(self) -> bool
        ensures { result ≡ asks_file self }
    {
        self.is_verify() || self.is_read()
    }

    /// Whether an answer is of such a command.
    fn may_be_answered(self, answer: &HostAnswer) -> bool
        ensures { result ≡ may_be_answered self answer.now }
    {
        match answer {
            HostAnswer::Appended(_) => self.is_append(),
            HostAnswer::NotAppended(_) => self.is_append(),
            HostAnswer::Played(_, _) => self.is_tree(),
            HostAnswer::Mounted(_) => self.is_mount(),
            HostAnswer::Same(_) => self.is_verify(),
            HostAnswer::Differs { .. } => self.is_verify(),
            HostAnswer::Length { .. } => self.is_verify(),
            HostAnswer::Bytes(_, _) => self.is_read(),
            HostAnswer::NotFound(_) => self.is_of_file(),
            HostAnswer::IsDirectory(_) => self.is_of_file(),
            HostAnswer::Checks(_, _) => self.is_check(),
            HostAnswer::Reports(_) => self.is_survey(),
            HostAnswer::NoSuperblock(_) => !self.is_survey(),
            HostAnswer::BadHeader(_) => !self.is_survey(),
            HostAnswer::BadSlot(_, _) => !self.is_survey(),
            HostAnswer::MediaFault(_) => true,
        }
    }

    /// Whether such a command may give a line at all.
    pub(crate) fn may_give(self, line: &Line) -> bool
        ensures { result ≡ may_give self line.now }
    {
        match line {
            Line::Found(_, _) => self.is_append(),
            Line::Writes { .. } => self.is_append(),
            Line::Answered(_, answer) => self.may_be_answered(answer),
            _ => true,
        }
    }
}
