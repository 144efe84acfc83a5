//! Answers that nothing is appended.

ghost use Rattle.std.specs.Prelude.{◌≡◌, ◌≢◌, ◌↔◌, ◌<◌, IfOk, IsTrue, option_map};
ghost use Rattle.fam_journal.specs.Shapes.{Begun};
ghost use Rattle.fam_rules.specs.Decide.{wish_of};
ghost use Rattle.fam_rules.specs.Reply as reply;
ghost use Rattle.fam_lines.specs.Lines.{untold_of};
ghost use Rattle.fam_judging.specs.Candidates.{stage_shape};
ghost use Rattle.fam_judging.specs.Lefts.{LeavesEndings};
ghost use Rattle.fam_judging.specs.ReplyKinds.{DeclinesEarly, EarlyCause, IsDecidedCause, IsLongOf, IsOtherOf, params_in};

use crate::candidate::{Settled, Stage, Track};
use crate::given::GivenImage;
use crate::lefts::{Lefts, kept};
use fam_base::{Cmd, OutOfMemory, Params, Path};
use fam_format::{FIRST_FORMAT, shape_of};
use fam_history::ToldCommand;
use fam_lines::SeenHost;
use fam_rules::Refused;
use std::alloc::Global;
use uuid::Uuid;

/// Whether a command has just begun.
pub(crate) fn has_begun(stage: Stage) -> bool
    ensures { IsTrue result ↔ (stage_shape stage ≡ Begun) }
{
    match stage {
        Stage::Begun => true,
        _ => false,
    }
}

/// The path of what a command wants to append.
pub(crate) fn path_wanted(cmd: &ToldCommand) -> Option<&Path>
    ensures { option_map (λ p. p.now) result ≡ option_map (λ w. w.path) (wish_of (untold_of cmd.now)) }
{
    match cmd {
        ToldCommand::Plain(Cmd::Mkdir { path, .. }) => Some(path),
        ToldCommand::Plain(Cmd::Creat { path, .. }) => Some(path),
        ToldCommand::Plain(Cmd::Cp { path, .. }) => Some(path),
        ToldCommand::Cp { path, .. } => Some(path),
        _ => None,
    }
}

/// The parameters of the file system, where its superblock reads.
pub(crate) fn params_in(given: &GivenImage, settled: &Settled) -> Option<Params>
    ensures { result ≡ params_in given.now settled.now }
{
    match settled {
        Settled::Log(log) => Some(*log.params()),
        Settled::Given => given.params,
        Settled::Halted => None,
    }
}

/// Whether another host may append alone.
fn is_other(params: &Option<Params>, me: &Uuid, own: &Uuid, master: &Uuid) -> bool
    ensures { IsTrue result ↔ IsOtherOf params.now me.now own.now master.now }
{
    match params {
        Some(params) => *own == *me && *own != *master && params.master == *master,
        None => false,
    }
}

/// Whether a path is too long.
fn is_long(params: &Option<Params>, me: &Uuid, cmd: &ToldCommand, limit: u64) -> bool
    ensures { IsTrue result ↔ IsLongOf params.now me.now (untold_of cmd.now) limit }
{
    let Some(params) = params else {
        return false;
    };
    let Some(path) = path_wanted(cmd) else {
        return false;
    };
    params.format == FIRST_FORMAT
        && *me == params.master
        && limit == shape_of(params.format).path_limit as u64
        && limit < path.bytes().len() as u64
}

/// Whether the superblock tells a refusal.
fn is_early(params: &Option<Params>, me: &Uuid, cmd: &ToldCommand, why: &Refused) -> bool
    ensures { IsTrue result ↔ EarlyCause params.now me.now (untold_of cmd.now) why.now }
{
    match why {
        Refused::NotMaster { me: own, master } => is_other(params, me, own, master),
        Refused::LongPath(limit) => is_long(params, me, cmd, *limit),
        _ => false,
    }
}

/// Whether a command that has just begun may be refused so by its superblock.
fn declines_early(
    params: &Option<Params>,
    me: &Uuid,
    cmd: &ToldCommand,
    stage: Stage,
    why: &Refused,
) -> bool
    ensures { IsTrue result ↔ DeclinesEarly params.now me.now (untold_of cmd.now) (stage_shape stage) why.now }
{
    has_begun(stage) && path_wanted(cmd).is_some() && is_early(params, me, cmd, why)
}

/// What a refusal that the superblock tells leaves.
pub(crate) fn refused_early(
    alloc: Global,
    given: &GivenImage,
    seen: &SeenHost,
    cmd: &ToldCommand,
    settled: &Settled,
    track: &Track,
    why: &Refused,
) -> Result<Lefts, OutOfMemory>
    ensures { IfOk result (λ lefts. (IsDecidedCause why.now → ⊥)
        → LeavesEndings given.now seen.now cmd.now settled.now track.now (reply.NotAppended why.now) lefts) }
{
    let params = params_in(given, settled);
    let stands = declines_early(&params, &seen.uuid, cmd, track.stage, why);
    kept(
        alloc,
        stands,
        settled,
        Track {
            floor: None,
            ..*track
        },
    )
}
