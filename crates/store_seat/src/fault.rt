//! Why a call has no answer.

use master_core::Refusal;

/// Why a call has no answer. The numbers are fixed.
#[derive(Drop)]
pub enum CallFault {
    /// 1: the step was refused, and there is no record.
    Refused(Refusal),
    /// 2: the command was applied, and its record is at this place, but a later step was refused. Nobody knows yet
    /// whether the record will be durable: `settle` goes on with it.
    Unsure(u64, Refusal),
    /// 3: the book's numbers of the seat aren't the seat's own. Nothing changed.
    SeatUnknown,
    /// 4: the cell of this record or of an earlier one did not take it, or the book's numbers of the seat weren't the
    /// seat's own after the record. The command may have been applied. Every later call ends in this fault, too.
    CellRefused,
    /// 5: comes only of `settle`. There is no record at the place, it is another seat's, the place is below the seat's
    /// first number, or the record was made before the store. Nothing changed.
    NotYours,
    /// 6: each cell of the store has its record, so none is left for this one. Nothing changed, and there is no record.
    CellsSpent,
}
