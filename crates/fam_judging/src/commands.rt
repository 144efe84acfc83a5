//! Copies of commands as lines tell them.

ghost use Rattle.std.specs.Prelude.{◌≡◌, IfOk};

use fam_base::OutOfMemory;
use fam_history::ToldCommand;

/// The same command.
pub(crate) fn copy_told(cmd: &ToldCommand) -> Result<ToldCommand, OutOfMemory>
    ensures { IfOk result (λ c. c ≡ cmd.now) }
{
    match cmd {
        ToldCommand::Plain(cmd) => match cmd.copy() {
            Ok(cmd) => Ok(ToldCommand::Plain(cmd)),
            Err(_) => Err(OutOfMemory),
        },
        ToldCommand::Cp {
            path,
            size,
            attr,
            stripe,
        } => Ok(ToldCommand::Cp {
            path: *path,
            size: *size,
            attr: *attr,
            stripe: *stripe,
        }),
        ToldCommand::VerifySource { path, count } => Ok(ToldCommand::VerifySource {
            path: *path,
            count: *count,
        }),
        ToldCommand::Check { count } => Ok(ToldCommand::Check { count: *count }),
    }
}
