//! A row of cells that are set once and keep the records of a history, and receipts of their places.
//!
//! A cell that was set keeps its record for good, so two receipts of one place have the same record, whoever holds
//! them (`Receipt::agree`). The first cell of a row is for the record at some place, and the others are for those
//! behind it. If a row is the row of a history from that place on, the history has a receipt's record at its place
//! (`Row::tell`). What is known of a cell is a note of it. Cells and receipts are of one brand (`Labels`), so those of
//! another store don't fit. Nothing here waits.
//!
//! The crate stands on `versioned_map`, whose records it keeps, and on the kit's `once_cell`.
#![tactic(auto)]

mod kept;
mod labels;
mod receipt;
mod row;
mod slot;

pub use labels::Labels;
pub use receipt::Receipt;
pub use row::{Cells, Row};
