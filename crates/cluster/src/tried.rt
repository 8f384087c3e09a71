//! What a command of a line comes to when it is tried.

use answers::driving::master::Refusal;

/// What a command of a line comes to when it is tried. It has no answer in it, since an answer is large and most
/// commands need none.
#[derive(Drop)]
pub enum Tried {
    /// The record at this place of the history has the reply, and is durable.
    Replied(u64),
    /// The command has to wait for a roll, and nothing was done.
    Waits,
    /// The command was refused, or a push of its record was: then the command was applied, and a backup may have taken
    /// the op. `Node::refuse` makes the answer.
    Refused(Refusal),
    /// No master is up, and nothing was done.
    Down,
}
