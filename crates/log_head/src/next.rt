//! What the next push does.

ghost use Rattle.std.specs.Prelude.{◌≡◌};
ghost use Rattle.log_head.specs.Next.{replica_of};

/// What the next push does. Each variant has the number of the replica that the push is for, from 0.
#[derive(Clone, Copy)]
pub enum Next {
    /// A replica of a master's first head is opened.
    OpenFirst(usize),
    /// A replica of the head is handed all units that it lacks.
    Extend(usize),
    /// The replacement of a lost replica is opened with all that the head holds.
    OpenWhole(usize),
    /// A replica of the new head is opened.
    OpenNew(usize),
    /// A replica of the old head is closed.
    CloseOld(usize),
}

impl Next {
    /// Returns the number of the replica.
    pub fn replica(&self) -> usize
        ensures { result ≡ replica_of self.now }
    {
        match self {
            Next::OpenFirst(replica) => *replica,
            Next::Extend(replica) => *replica,
            Next::OpenWhole(replica) => *replica,
            Next::OpenNew(replica) => *replica,
            Next::CloseOld(replica) => *replica,
        }
    }
}
