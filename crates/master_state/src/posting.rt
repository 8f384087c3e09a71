//! What a core adds to its ledger as backups take ops.

ghost use Rattle.std.specs.Prelude.{◌≡◌, ◌<◌, suc, ◌==◌, ◌+◌};
ghost use Rattle.master_state.specs.Invariant.{IsCore};
ghost use Rattle.master_state.specs.Steps.{backup_of, ledger_after};
ghost use Rattle.master_state.specs.Ledger.{posted, ended_with};
ghost use Rattle.log_head.specs.Next.{replica_of, segment_of};

use crate::ledger::{Ledger, Posting};
use crate::state::Core;
use log_head::Next;

impl Core {
    /// Adds a posting to the ledger.
    #[inline(always)]
    pub fn post(&mut self, posting: &Posting)
        ensures posted { self.new ≡ posted self.old posting.now }
        ensures valid { IsCore self.new }
    {
        self.ledger = Ledger::with(&self.ledger, posting);
    }

    /// Adds to the ledger that this backup took the op of a push, which is on this segment.
    #[inline(always)]
    pub fn post_push(&mut self, next: Next, segment: u64, backup: u64)
        requires few { replica_of next < 64 }
        requires segment { segment ≡ segment_of self.old.head next }
        requires backup { backup ≡ backup_of self.old next }
        ensures posted { self.new ≡ record self.old { ledger = ledger_after self.old next } }
        ensures valid { IsCore self.new }
    {
        match next {
            Next::OpenFirst(replica) => {
                self.post(&Posting::Took(segment, backup));
                self.post_end(replica);
            }
            Next::Extend(_) => {
                let units = self.head.count();
                self.post(&Posting::Has(backup, units));
            }
            Next::OpenWhole(_) => {
                let units = self.head.count();
                self.post(&Posting::Took(segment, backup));
                self.post(&Posting::Has(backup, units));
            }
            Next::OpenNew(_) => self.post(&Posting::Took(segment, backup)),
            Next::CloseOld(replica) => {
                self.post(&Posting::Shut(backup));
                self.post_end(replica);
            }
        }
    }

    /// Adds the end of a roll to the ledger if this replica is the last one.
    #[inline(always)]
    fn post_end(&mut self, replica: usize)
        requires { replica < 64 }
        ensures posted { let is_last = suc replica == self.old.config.replicas in
            self.new ≡ record self.old { ledger = ended_with is_last self.old.ledger } }
        ensures valid { IsCore self.new }
    {
        if replica as u64 + 1 == self.config.replicas {
            self.post(&Posting::Ended);
        }
    }
}
