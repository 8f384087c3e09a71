//! The tests of drills over files: the power is cut amid each call of a master's files, and each durable command is
//! found.
#![tactic(auto)]

#[cfg(test)]
mod cuts;
#[cfg(test)]
mod masters;
