//! What a told command appends, and the bytes of its file.

ghost use Rattle.std.specs.Prelude.{◌≡◌, ℕ, Some, Ok};
ghost use Rattle.fam_base.specs.declared.entry.Entry.{Entry};
ghost use Rattle.fam_history.specs.declared.command.ToldCommand.TheVariants as told;
ghost use Rattle.fam_rules.specs.Content.{fill as fills};
ghost use Rattle.fam_rules.specs.Solo.{content_of};
ghost use Rattle.fam_rules.specs.Asks.{entries_of};
ghost use Rattle.fam_rules.specs.Decide.{Wish, decide, wish_of};
ghost use Rattle.fam_rules.specs.DecideLaws.{IsSoundWish};
ghost use Rattle.fam_journal.specs.Past.{filled_bytes};
ghost use Rattle.fam_judge.specs.Untold.{untold_cmd};
ghost use Rattle.fam_plan.specs.State.{MayBeAdded};
ghost use Rattle.fam_settled.specs.Bytes.{file_bytes_told};
ghost use Rattle.fam_settled.specs.Settled.{settled_files, plan_of};
ghost use Rattle.fam_settled.specs.Told.{HasToldFill, IsToldCreat, IsToldFill, bare_cmd};

use crate::bytes::Bytes;
use crate::log::Log;
use fam_base::{Attr, Cmd, Content, Entry, Path, Stripe};
use fam_history::ToldCommand;
use fam_plan::{Plan, a_decided_entry_may_be_added, decide_with_length};
use fam_rules::Refused;
use uuid::Uuid;

/// What a command that takes nothing from a source appends.
fn decide_plain(plan: &Plan, cmd: &Cmd, me: Uuid) -> Option<Result<Entry, Refused>>
    ensures { result ≡ decide plan.now.params me plan.now.entries (untold_cmd cmd.now) }
{
    match cmd {
        Cmd::Mkdir { .. } | Cmd::Creat { .. } | Cmd::Cp { .. } => {
            Some(decide_with_length(plan, cmd, me))
        }
        _ => None,
    }
}

/// What a cp of so many bytes appends: an entry as of a creat of as many.
fn decide_cp(
    plan: &Plan,
    path: &Path,
    size: u64,
    attr: Attr,
    stripe: Option<Stripe>,
    me: Uuid,
) -> Option<Result<Entry, Refused>>
    ensures { result ≡ decide plan.now.params me plan.now.entries (bare_cmd (told.Cp path.now size attr stripe)) }
{
    let creat = Cmd::Creat {
        path: *path,
        size,
        attr,
        stripe,
        fill: Content::Zero,
    };
    Some(decide_with_length(plan, &creat, me))
}

/// Where the bytes of a file are from that is filled with a content.
fn bytes_of_fill(content: &Content) -> Bytes
    requires { IsToldFill content.now }
    ensures { (size : ℕ) → fills content.now size ≡ file_bytes_told result size }
{
    match content {
        Content::Zero => Bytes::Zero,
        Content::Seed(seed) => Bytes::Seed(*seed),
        Content::Bytes(_) => unreachable!(),
    }
}

/// Where the bytes of a file are from that a command that takes nothing from a source appends.
fn plain_bytes(cmd: &Cmd) -> Bytes
    requires { IsToldCreat cmd.now }
    ensures { (w : Wish) → wish_of (untold_cmd cmd.now) ≡ Some w
        → fills (content_of (untold_cmd cmd.now)) w.size ≡ file_bytes_told result w.size }
{
    match cmd {
        Cmd::Creat { fill, .. } => bytes_of_fill(fill),
        Cmd::Cp { .. } => Bytes::Untold,
        _ => Bytes::Zero,
    }
}

/// Where the bytes of a command's new file are from.
pub fn bytes_told(cmd: &ToldCommand) -> Bytes
    requires { HasToldFill cmd.now }
    ensures { (w : Wish) → wish_of (bare_cmd cmd.now) ≡ Some w
        → filled_bytes (Some (bare_cmd cmd.now)) w.size ≡ file_bytes_told result w.size }
{
    match cmd {
        ToldCommand::Plain(cmd) => plain_bytes(cmd),
        ToldCommand::Cp { .. } => Bytes::Untold,
        _ => Bytes::Zero,
    }
}

impl Log {
    /// What a host's command appends behind the settled entries, or the first refusal. None: it doesn't append. It takes no
    /// memory, and adds nothing.
    fn decided(&self, cmd: &ToldCommand, me: Uuid) -> Option<Result<Entry, Refused>>
        ensures { result ≡ decide self.now.params me self.now.entries (bare_cmd cmd.now) }
    {
        match cmd {
            ToldCommand::Plain(cmd) => decide_plain(&self.plan, cmd, me),
            ToldCommand::Cp {
                path,
                size,
                attr,
                stripe,
            } => decide_cp(&self.plan, path, *size, *attr, *stripe, me),
            _ => None,
        }
    }

    /// What a host's command appends behind the settled entries, or the first refusal. None: it doesn't append. It takes no
    /// memory, and adds nothing.
    pub fn decide(&self, cmd: &ToldCommand, me: Uuid) -> Option<Result<Entry, Refused>>
        ensures value { result ≡ decide self.now.params me (entries_of (settled_files self.now)) (bare_cmd cmd.now) }

        // What is decided for a sound wish may pend.
        ensures may { (w : Wish) (e : Entry) → wish_of (bare_cmd cmd.now) ≡ Some w → IsSoundWish w → result ≡ Some (Ok e)
            → MayBeAdded (plan_of self.now) e }
    {
        a_decided_entry_may_be_added();
        self.is_settled();
        self.decided(cmd, me)
    }
}
