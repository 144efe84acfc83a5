//! Which entries may be acknowledged.

ghost use Rattle.std.specs.Prelude.{◌≡◌, ◌↔◌, ◌+◌, IsTrue, Some, length, option_map, slice_get};
ghost use Rattle.fam_journal.specs.Legal.{AppendedAllowed};
ghost use Rattle.fam_journal.specs.Past.{HostPast, acknowledges};
ghost use Rattle.fam_settled.specs.Settled.{settled_log_state};

use crate::log::Log;
use fam_base::Entry;

impl Log {
    /// Whether this entry pends.
    fn pends_so(&self, entry: &Entry) -> bool
        ensures { IsTrue result ↔ (option_map (λ f. f.entry) self.now.pending ≡ Some entry.now) }
    {
        match self.pending() {
            Some(pending) => pending.entry.is_same(entry),
            None => false,
        }
    }

    /// Whether the last entry that is settled is this one, of number `seq`.
    fn ends_so(&self, seq: u64, entry: &Entry) -> bool
        ensures { IsTrue result ↔ ((length self.now.entries ≡ seq + 1) × (slice_get self.now.entries seq ≡ Some entry.now)) }
    {
        let count = self.count();
        if seq >= count {
            return false;
        }
        if count - seq != 1 {
            return false;
        }
        match self.plan.at(seq) {
            Some(last) => last.is_same(entry),
            None => false,
        }
    }

    /// Whether entry `seq` may be acknowledged to a host that named this entry, with this number.
    pub fn acknowledged_fits(&self, seq: u64, named: u64, entry: &Entry) -> bool
        ensures { (host : HostPast) → host.wrote ≡ Some (record { seq = named; entry = entry.now })
            → IsTrue result ↔ AppendedAllowed seq host (acknowledges seq (settled_log_state self.now)) }
    {
        if named != seq {
            return false;
        }
        if seq == self.count() {
            return self.pends_so(entry);
        }
        self.ends_so(seq, entry)
    }
}
