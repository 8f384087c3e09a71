//! The tests of the lower crates: vectors of entries and of segments, images in memory, compaction, counted bytes, a
//! pass, heads, packed histories, wills, and the lines of scripts.
//!
//! What a test does is data: a table of calls, each with its answer, or of inputs, each with what comes of it. A
//! function owns one thing at most and lends it to the next, and a test asserts that no row is answered otherwise. So a
//! further case is a row, and costs nothing to prove.
#![tactic(auto)]

#[cfg(test)]
mod compactions;
#[cfg(test)]
mod entries;
#[cfg(test)]
mod heads;
#[cfg(test)]
mod histories;
#[cfg(test)]
mod large;
#[cfg(test)]
mod lines_of_scripts;
#[cfg(test)]
mod passes;
#[cfg(test)]
mod seglets;
#[cfg(test)]
mod segments;
#[cfg(test)]
mod tallies;
#[cfg(test)]
mod vectors;
#[cfg(test)]
mod wills;
