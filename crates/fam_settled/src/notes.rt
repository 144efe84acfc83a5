//! Which notes of a command that appends fit.

ghost use Rattle.std.specs.Prelude.{◌≡◌, ◌↔◌, IsTrue, Some, Ok, Err};
ghost use Rattle.fam_rules.specs.Asks.{entries_of};
ghost use Rattle.fam_rules.specs.Decide.{decide};
ghost use Rattle.fam_journal.specs.Legal.{CauseAllowed, DecideAllowed, FoundAllowed, IsOther, WritesAllowed};
ghost use Rattle.fam_journal.specs.Past.{HostPast};
ghost use Rattle.fam_settled.specs.Settled.{settled_files, settled_log_state};
ghost use Rattle.fam_settled.specs.Told.{bare_cmd};

use crate::log::Log;
use fam_base::Entry;
use fam_history::ToldCommand;
use fam_rules::Refused;
use uuid::Uuid;

impl Log {
    /// Whether a master may find so many entries.
    pub fn found_fits(&self, n: u64) -> bool
        ensures { IsTrue result ↔ FoundAllowed n (settled_log_state self.now) }
    {
        if n == self.count() {
            return true;
        }
        match self.pending() {
            Some(_) => n == self.all(),
            None => false,
        }
    }

    /// Whether the rules decide on this entry.
    fn names_so(&self, asked: &ToldCommand, me: Uuid, entry: &Entry) -> bool
        ensures { IsTrue result ↔ (decide self.now.params me (entries_of (settled_files self.now)) (bare_cmd asked.now) ≡ Some (Ok entry.now)) }
    {
        match self.decide(asked, me) {
            Some(Ok(named)) => named.is_same(entry),
            _ => false,
        }
    }

    /// Whether the rules refuse so.
    fn refuses_so(&self, asked: &ToldCommand, me: Uuid, why: &Refused) -> bool
        ensures { IsTrue result ↔ (decide self.now.params me (entries_of (settled_files self.now)) (bare_cmd asked.now) ≡ Some (Err why.now)) }
    {
        match self.decide(asked, me) {
            Some(Err(refused)) => refused == *why,
            _ => false,
        }
    }

    /// Whether a host's command may write this entry, of this number.
    pub fn writes_fits(&self, seq: u64, entry: &Entry, asked: &ToldCommand, me: Uuid) -> bool
        ensures { (host : HostPast) → host.uuid ≡ me → host.cmd ≡ Some (bare_cmd asked.now)
            → IsTrue result ↔ WritesAllowed seq entry.now host (settled_log_state self.now) }
    {
        if self.pending().is_some() {
            return false;
        }
        if seq != self.count() {
            return false;
        }
        self.names_so(asked, me, entry)
    }

    /// Whether nothing pends, and the rules refuse so.
    fn refuses_now(&self, asked: &ToldCommand, me: Uuid, why: &Refused) -> bool
        ensures { (host : HostPast) → host.uuid ≡ me → host.cmd ≡ Some (bare_cmd asked.now)
            → IsTrue result ↔ DecideAllowed host (Err why.now) (settled_log_state self.now) }
    {
        if self.pending().is_some() {
            return false;
        }
        self.refuses_so(asked, me, why)
    }

    /// Whether another host than the one of the superblock may be refused so.
    fn is_other(&self, me: &Uuid, named: &Uuid, master: &Uuid) -> bool
        ensures { (host : HostPast) → host.uuid ≡ me.now → IsTrue result ↔ IsOther named.now master.now host (settled_log_state self.now) }
    {
        if *named != *me {
            return false;
        }
        if *master != self.params().master {
            return false;
        }
        *named != *master
    }

    /// Whether a host's command may be refused so.
    pub fn cause_fits(&self, why: &Refused, asked: &ToldCommand, me: Uuid) -> bool
        ensures { (host : HostPast) → host.uuid ≡ me → host.cmd ≡ Some (bare_cmd asked.now)
            → IsTrue result ↔ CauseAllowed why.now host (settled_log_state self.now) }
    {
        match why {
            Refused::NotMaster { me: named, master } => self.is_other(&me, named, master),
            Refused::LongPath(_) => self.refuses_so(asked, me, why),
            _ => self.refuses_now(asked, me, why),
        }
    }
}
