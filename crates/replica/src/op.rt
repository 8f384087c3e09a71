//! What a master asks of a backup.

use thiserror::Error;

/// What an op does to the replica that it names. The bytes are borrowed from the master.
#[derive(Clone, Copy)]
pub enum Act<'a> {
    /// Makes an open replica with these bytes. There must be no replica before.
    Open(&'a [u8]),
    /// Appends the bytes to the open replica, which must have `at` bytes before.
    Extend { at: usize, bytes: &'a [u8] },
    /// Closes the open replica.
    Close,
    /// Makes a closed replica with these bytes. There must be no replica before.
    Seal(&'a [u8]),
    /// Removes the replica, whether it is open or closed.
    Free,
}

/// An op on the replica of a master's segment.
#[derive(Clone, Copy)]
pub struct Op<'a> {
    pub master: u64,
    pub segment: u64,
    pub act: Act<'a>,
}

/// Why an op was not answered Ok.
#[derive(Clone, Copy, Debug, PartialEq, Eq, Error)]
pub enum TakeFault {
    /// The op was not taken: memory ran out.
    #[error("NoMemory")]
    NoMemory,
    /// The op was not taken: it doesn't fit the replica that it names, or there is no such backup.
    #[error("Wrong")]
    Wrong,
    /// Nobody knows whether the op was taken.
    #[error("Fault")]
    Fault,
    /// The op was not taken: the fleet has taken as many ops as its limit allows.
    #[error("Spent")]
    Spent,
}
