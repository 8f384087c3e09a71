//! The tests of masters: runs of one master, masters that are restored or adopt a list, drills, lives that follow one
//! another, recoveries in given orders, and comparisons with the plain programs.
#![tactic(auto)]

#[cfg(test)]
mod adoptions;
#[cfg(test)]
mod answers;
#[cfg(test)]
mod asks;
#[cfg(test)]
mod comparisons;
#[cfg(test)]
mod drills;
#[cfg(test)]
mod limits;
#[cfg(test)]
mod lives;
#[cfg(test)]
mod loadings;
#[cfg(test)]
mod masters;
#[cfg(test)]
mod runs;
