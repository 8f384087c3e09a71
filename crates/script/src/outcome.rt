//! What a line of a script comes to.

use next_master::answers::Answer;

/// What a line of a script comes to.
#[derive(Drop)]
pub enum Outcome {
    Answered(Answer),
    /// The record at this place of the history has the reply.
    Replied(u64),
}
