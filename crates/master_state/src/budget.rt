//! How much memory a core counts, and when a roll may begin.

ghost use Rattle.std.specs.Prelude.{◌≡◌, ◌+◌, ◌-◌, ◌*◌, ◌≤◌, ◌^◌, length, true, IfSome};
ghost use Rattle.log_head.specs.Head.{is_open, digest_of};
ghost use Rattle.master_state.specs.Budget.{used_seglets, free_seglets, seglets_of, is_working, may_roll, may_commit};
ghost use Rattle.master_state.specs.Budget.{has_abandoned, commit_listed, may_turn, turn_listed, turn_need};
ghost use Rattle.master_state.specs.declared.failover.Part.TheVariants as part;
ghost use Rattle.master_state.specs.Budget.{is_ready, segments_taken, segments_leaving, segments_entering};
ghost use Rattle.master_state.specs.Budget.{newest_digest, survivors_of, whole_seglets};

use crate::state::Core;
use entry::MAX_SEGMENT_ID;

impl Core {
    /// How many seglets of memory are counted. The newest head and each survivor of the open pass count a whole
    /// segment. Each other segment counts its length.
    pub fn used(&self) -> u64
        ensures used { result ≡ used_seglets self.now }
        ensures within { result ≤ self.now.config.seglets }
    {
        let whole = self.config.segment / self.config.seglet;
        let head = if self.head.roll().is_some() || self.has_abandoned() {
            self.closing_seglets() + whole
        } else {
            whole
        };
        head + self.closed.used()
    }

    /// How many seglets of the configuration aren't counted.
    pub fn free(&self) -> u64
        ensures { result ≡ free_seglets self.now }
    {
        self.config.seglets - self.used()
    }

    /// How many ids the digest in force lists.
    pub fn digest_len(&self) -> u64
        ensures { result ≡ length (digest_of self.now.head.image) }
    {
        self.closed.len() as u64 + 1 - self.survivors()
    }

    /// How many seglets the head counts once it is closed.
    fn closing_seglets(&self) -> u64
        ensures closing { result ≡ seglets_of self.now.config self.now.head.image }
        ensures small { result ≤ 2 ^ 32 }
    {
        (self.head.image().bytes_len() as u64).div_ceil(self.config.seglet)
    }

    /// Returns true if a pass is open and ready for its commit.
    pub fn is_ready(&self) -> bool
        ensures { result ≡ is_ready self.now }
    {
        match &self.pass {
            None => false,
            Some(pass) => pass.is_ready(self.config.replicas as usize, &self.closed),
        }
    }

    /// Returns true if a failover is open that still has the image of an abandoned head.
    fn has_abandoned(&self) -> bool
        ensures { result ≡ has_abandoned self.now }
    {
        match &self.failover {
            None => false,
            Some(failover) => failover.abandoned.is_some(),
        }
    }

    /// Returns true if all replicas of the head are open, no roll is under way, and no failover is open.
    #[inline(always)]
    pub fn is_working(&self) -> bool
        ensures { result ≡ is_working self.now }
    {
        self.head.is_open() && self.failover.is_none()
    }

    /// How many of the segments that have to be free for a roll an open pass has taken already: 1, or 0 if no pass is
    /// open.
    fn segments_taken(&self) -> u64
        ensures { result ≡ segments_taken self.now }
    {
        match &self.pass {
            None => 0,
            Some(_) => 1,
        }
    }

    /// How many segments the next commit takes out of the digest: the victims of the open pass, or 1 if none is open.
    fn segments_leaving(&self) -> u64
        ensures { result ≡ segments_leaving self.now }
    {
        match &self.pass {
            None => 1,
            Some(pass) => pass.victims.as_slice().len() as u64,
        }
    }

    /// How many segments the next commit takes into the digest beside the head: the survivors of the open pass, or 1 if
    /// none is open.
    fn segments_entering(&self) -> u64
        ensures entering { result ≡ segments_entering self.now }
        ensures few { result ≤ 4 }
    {
        match &self.pass {
            None => 1,
            Some(pass) => pass.survivors.count as u64,
        }
    }

    /// How many survivors the open pass has; 0 if none is open.
    fn survivors(&self) -> u64
        ensures count { result ≡ length (survivors_of self.now.pass) }
        ensures few { result ≤ 4 }
    {
        match &self.pass {
            None => 0,
            Some(pass) => pass.survivors.count as u64,
        }
    }

    /// How many ids the digest in force lists.
    fn listed(&self) -> u64
        requires { is_open self.now.head ≡ true }
        ensures listed { result ≡ length (newest_digest self.now.head) }
        ensures small { result ≤ 2 ^ 32 + 1 }
    {
        self.closed.len() as u64 + 1 - self.survivors()
    }

    /// How many seglets have to be free when a roll begins that has to have so many whole segments free. An open pass
    /// has taken one of these already.
    fn needed(&self, free: u64) -> u64
        requires few { free ≤ 3 }
        ensures needed { result ≡ (free - segments_taken self.now) * whole_seglets self.now.config
            + seglets_of self.now.config self.now.head.image }
    {
        let whole = self.config.segment / self.config.seglet;
        free.saturating_sub(self.segments_taken()) * whole + self.closing_seglets()
    }

    /// Returns true if a roll may begin that has to have `free` whole segments free. If a pass is ready, the roll is
    /// its commit, and `may_commit` decides. Any other roll needs a place for one more id in the digest, beside the
    /// places that are kept for the next commit. It also needs as many free seglets as `needed` returns.
    pub fn may_roll(&self, free: u64) -> bool
        requires open { is_open self.now.head ≡ true }
        requires few { free ≤ 3 }
        ensures { result ≡ may_roll self.now free }
    {
        if self.is_ready() {
            return self.may_commit();
        }
        let more = self.listed() + 1;
        let most = self.config.segment / 32;
        let left = most - 1 - self.segments_entering() + self.segments_leaving();
        let needed = self.needed(free);
        more <= most && more <= left && needed <= self.free()
    }

    /// Returns true if the commit of a pass that is ready may begin. Under format 1 it always may. Under format 2 the
    /// digest needs places for its ids, and the old head's seglets have to be free.
    fn may_commit(&self) -> bool
        requires { is_open self.now.head ≡ true }
        ensures { result ≡ may_commit self.now }
    {
        self.config.format == 1
            || self.commit_listed() <= self.config.segment / 32
                && self.closing_seglets() <= self.free()
    }

    /// How many ids the digest of the next commit lists.
    fn commit_listed(&self) -> u64
        ensures { result ≡ commit_listed self.now }
    {
        let listed = self.closed.len() as u64 + 1 - self.survivors();
        listed.saturating_sub(self.segments_leaving()) + self.segments_entering() + 1
    }

    /// Returns true if a failover may open its new head: an id is left, the digest has places for its ids, and the
    /// needed seglets are free. The new head may use what is kept for other rolls. If no head was opened on all its
    /// homes yet, the new head takes the place of the first head, and only the id is needed.
    pub fn may_turn(&self) -> bool
        requires { IfSome self.now.failover (λ f. f.part ≡ part.Mends) }
        ensures { result ≡ may_turn self.now }
    {
        if self.next_id > MAX_SEGMENT_ID {
            return false;
        }
        let is_first = match &self.failover {
            None => false,
            Some(failover) => failover.is_first,
        };
        is_first
            || self.turn_listed() <= self.config.segment / 32 && self.turn_need() <= self.free()
    }

    /// How many ids the digest of a failover's new head lists.
    fn turn_listed(&self) -> u64
        ensures { result ≡ turn_listed self.now }
    {
        if self.is_ready() {
            return self.commit_listed();
        }
        self.closed.len() as u64 + 1 - self.survivors() + 1
    }

    /// How many seglets have to be free for a failover's new head: those of the old head, or 0 if the old head counts
    /// its length already.
    fn turn_need(&self) -> u64
        ensures { result ≡ turn_need self.now }
    {
        if self.has_abandoned() {
            return 0;
        }
        self.closing_seglets()
    }
}
