//! Where replicas are.

/// Where a replica is.
#[derive(Clone, Copy)]
pub struct Spot {
    /// The number of its backup, from 0.
    pub backup: u64,
    /// The number of its master.
    pub master: u64,
    /// The number of its segment.
    pub segment: u64,
}
