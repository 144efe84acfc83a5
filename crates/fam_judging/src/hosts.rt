//! The hosts of a history, as all its states have them. `specs/After.antt` says what they are behind a line.

ghost use Rattle.std.specs.Prelude.{◌≡◌, ◌++◌, ◌∷◌, List, Option, [], None, Some, IfOk, OnOk, false, true};
ghost use Rattle.fam_history.specs.declared.command.ToldCommand.{ToldCommand};
ghost use Rattle.fam_journal.specs.Members.{changed_at};
ghost use Rattle.fam_journal.specs.Shapes.{keeps_behind};
ghost use Rattle.fam_lines.specs.declared.host.SeenHost.{SeenHost};
ghost use Rattle.fam_lines.specs.Lines.{answer_of};
ghost use Rattle.fam_judging.specs.Candidates.{HostsFit};
ghost use Rattle.fam_judging.specs.After.{commands_after, new_seen, seen_after};

use crate::commands::copy_told;
use fam_base::{HostName, OutOfMemory};
use fam_history::ToldCommand;
use fam_lines::{HostAnswer, Line, SeenHost};
use std::mem::replace;
use uuid::Uuid;

/// The hosts that are declared, and the last command of each.
#[derive(Drop)]
pub struct Hosts {
    pub seen: Vec<SeenHost>,
    pub commands: Vec<Option<ToldCommand>>,
}

/// The same hosts.
fn copy_seen(seen: &Vec<SeenHost>) -> Result<Vec<SeenHost>, OutOfMemory>
    ensures { IfOk result (λ copy. copy.items ≡ seen.now.items) }
{
    match seen.clone() {
        Ok(copy) => Ok(copy),
        Err(_) => Err(OutOfMemory),
    }
}

/// One host more.
fn declare(seen: &mut Vec<SeenHost>, name: HostName, uuid: Uuid) -> Result<(), OutOfMemory>
    ensures { OnOk result (seen.new.items ≡ seen.old.items ++ new_seen name uuid ∷ []) }
{
    let new = SeenHost {
        name,
        uuid,
        runs: false,
        keeps: false,
    };
    if seen.push(new).is_err() {
        return Err(OutOfMemory);
    }
    Ok(())
}

/// It has begun no command.
fn declare_command(commands: &mut Vec<Option<ToldCommand>>) -> Result<(), OutOfMemory>
    ensures { OnOk result (commands.new.items ≡ commands.old.items ++ None ∷ []) }
{
    match commands.push(None) {
        Ok(()) => Ok(()),
        Err(refused) => {
            let_go(refused.value);
            Err(OutOfMemory)
        }
    }
}

/// Whether a host runs a command.
fn put_runs(seen: &mut Vec<SeenHost>, at: usize, runs: bool)
    ensures { seen.new.items ≡ changed_at at (λ s. record s { runs = runs }) seen.old.items }
{
    if at < seen.len() {
        seen[at].runs = runs;
    }
}

/// A host runs no command, and whether it keeps something of the log.
fn put_idle(seen: &mut Vec<SeenHost>, at: usize, keeps: bool)
    ensures { seen.new.items ≡ changed_at at (λ s. record s { runs = false; keeps = keeps }) seen.old.items }
{
    if at < seen.len() {
        let host = &mut seen[at];
        host.runs = false;
        host.keeps = keeps;
    }
}

/// A host keeps nothing of the log.
fn put_clean(seen: &mut Vec<SeenHost>, at: usize)
    ensures { seen.new.items ≡ changed_at at (λ s. record s { keeps = false }) seen.old.items }
{
    if at < seen.len() {
        seen[at].keeps = false;
    }
}

/// Lets a command go.
fn let_go(_cmd: Option<ToldCommand>) {}

/// A host's last command.
fn put_command(commands: &mut Vec<Option<ToldCommand>>, at: usize, cmd: Option<ToldCommand>)
    ensures { commands.new.items ≡ changed_at at (λ c. cmd) commands.old.items }
{
    if at < commands.len() {
        let_go(replace(&mut commands[at], cmd));
    } else {
        let_go(cmd);
    }
}

/// A host begins a command.
fn begin(
    commands: &mut Vec<Option<ToldCommand>>,
    at: usize,
    cmd: &ToldCommand,
) -> Result<(), OutOfMemory>
    ensures { OnOk result (commands.new.items ≡ changed_at at (λ c. Some cmd.now) commands.old.items) }
{
    let cmd = copy_told(cmd)?;
    put_command(commands, at, Some(cmd));
    Ok(())
}

/// Whether a host keeps something of the log behind an answer: a mount's makes it so.
fn keeps_behind(answer: &HostAnswer, keeps: bool) -> bool
    ensures { result ≡ keeps_behind (answer_of answer.now) keeps }
{
    match answer {
        HostAnswer::Mounted(_) => true,
        _ => keeps,
    }
}

/// A host was answered.
fn answered(seen: &mut Vec<SeenHost>, at: usize, answer: &HostAnswer)
    ensures { seen.new.items ≡ changed_at at (λ s. record s { runs = false; keeps = keeps_behind (answer_of answer.now) s.keeps }) seen.old.items }
{
    if at < seen.len() {
        let host = &mut seen[at];
        host.runs = false;
        host.keeps = keeps_behind(answer, host.keeps);
    }
}

/// What is seen of the hosts behind a line that stands.
fn follow_seen(seen: &mut Vec<SeenHost>, line: &Line) -> Result<(), OutOfMemory>
    ensures { OnOk result (seen.new.items ≡ seen_after seen.old.items line.now) }
{
    match line {
        Line::Host(name, uuid) => return declare(seen, *name, *uuid),
        Line::Start(host, _) => put_runs(seen, *host, true),
        Line::Answered(host, answer) => answered(seen, *host, answer),
        Line::Stop(host) => put_runs(seen, *host, false),
        Line::Halt(host) => put_idle(seen, *host, false),
        Line::Umount(host) => put_clean(seen, *host),
        _ => {}
    }
    Ok(())
}

/// Their last commands.
fn follow_commands(commands: &mut Vec<Option<ToldCommand>>, line: &Line) -> Result<(), OutOfMemory>
    ensures { OnOk result (commands.new.items ≡ commands_after commands.old.items line.now) }
{
    match line {
        Line::Host(_, _) => declare_command(commands),
        Line::Start(host, cmd) => begin(commands, *host, cmd),
        _ => Ok(()),
    }
}

impl Hosts {
    /// The hosts behind a line that stands.
    pub fn follow(&mut self, line: &Line) -> Result<(), OutOfMemory>
        ensures seen { OnOk result (self.new.seen.items ≡ seen_after self.old.seen.items line.now) }
        ensures commands { OnOk result (self.new.commands.items ≡ commands_after self.old.commands.items line.now) }
    {
        follow_seen(&mut self.seen, line)?;
        follow_commands(&mut self.commands, line)
    }

    /// What is seen of them then.
    pub(crate) fn seen_behind(&self, line: &Line) -> Result<Vec<SeenHost>, OutOfMemory>
        ensures { IfOk result (λ seen. seen.items ≡ seen_after self.now.seen.items line.now) }
    {
        let mut seen = copy_seen(&self.seen)?;
        follow_seen(&mut seen, line)?;
        Ok(seen)
    }
}
