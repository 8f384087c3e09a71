//! A store that goes on where another one was paused.

ghost use Rattle.std.specs.Prelude.{◌≡◌, ◌≤◌, ◌+◌, [], IfOk, MatchResult, drop, length};
ghost use Rattle.history_row.specs.Rows.{IsRowOf};
ghost use Rattle.locked_log.specs.Made.{IsMade};
ghost use Rattle.locked_log.specs.Renews.{AreFiled, AreSeatsAgain};
ghost use Rattle.store_step.specs.master.World.{world};

use crate::blank::Blank;
use crate::pausing::Paused;
use crate::refiling::{file_all, open_again, seat_again};
use crate::state::State;
use crate::store::Store;
use entry::NoMemory;
use history_row::Row;
use mark_word::Mark;
use replica::Fleet;
use std::alloc::Global;
use std::sync::ledger::Book;
use store_seat::{Account, Naming, Seat, Shared};

/// What a store that goes on has beside its master, and its seats.
#[derive(Drop)]
struct Files<B: Naming> {
    book: Vec<Account>,
    total: Book<B>,
    row: Row<B>,
    seats: Vec<Seat<B>>,
    mark: Mark,
}

/// The seats of a store that goes on, and all that it has beside its master.
fn refile<F: Fleet, B: Naming>(
    alloc: Global,
    blank: Blank,
    paused: &Paused<F>,
) -> Result<Files<B>, NoMemory>
    requires empty { IsRowOf blank.row [] }
    requires room { length paused.now.master.knows.history ≤ paused.now.start + length blank.row }
    requires seats { blank.seats ≡ length paused.now.book }
    requires cells { (blank.cells ≡ B.cells) × (blank.seats ≡ B.made.seats) }
    requires start { B.start ≡ paused.now.start }
    requires ledger { (blank.name ≡ B.name) × (blank.parts ≡ B.parts) }
    requires mark { blank.table ≡ B.table }
    ensures filed { IfOk result (λ f. AreFiled paused.now.book
        (drop paused.now.start paused.now.master.knows.history) f.row f.book.items f.total.total f.seats.items) }
    ensures mark { IfOk result (λ f. (f.mark.shared.table_id ≡ B.table) × (f.mark.shared.table_id.words ≡ 1)) }
{
    paused.show_valid();
    let Blank {
        cells,
        ledger,
        mark,
        pen,
        seats: _,
    } = blank;
    let (mut total, share) = ledger.open::<B>();
    let mut row = cells.named::<B>(paused.start() as usize);
    let old = paused.book();
    let Ok(mut book) = open_again(alloc, old) else {
        return Err(NoMemory);
    };
    let Ok(mut seats) = seat_again::<B>(alloc, &mark, pen, share, old) else {
        return Err(NoMemory);
    };
    let history = paused.history();
    let filed = file_all(
        alloc, history, old, &mut row, &mut book, &mut total, &mut seats,
    );
    match filed {
        Ok(()) => Ok(Files {
            book,
            total,
            row,
            seats,
            mark,
        }),
        Err(fault) => Err(fault),
    }
}

impl<F: Fleet, B: Naming> Store<F, B> {
    /// Makes the store that goes on where one was paused, over the same master, and its seats. Each seat is there under
    /// its number and with its first number, and can settle what it could settle before. The mark begins anew. If
    /// memory runs out, what was paused comes back as it was. It copies nothing of a record.
    pub fn renew(
        alloc: Global,
        blank: Blank,
        paused: Paused<F>,
    ) -> Result<(Store<F, B>, Vec<Seat<B>>), (NoMemory, Paused<F>)>
        requires empty { IsRowOf blank.row [] }
        requires room { length paused.master.knows.history ≤ paused.start + length blank.row }
        requires seats { blank.seats ≡ length paused.book }
        // The brand is the one that names the blank and what was paused.
        requires cells { (blank.cells ≡ B.cells) × (blank.seats ≡ B.made.seats) }
        requires start { B.start ≡ paused.start }
        requires ledger { (blank.name ≡ B.name) × (blank.parts ≡ B.parts) }
        requires mark { blank.table ≡ B.table }
        requires made { IsMade B.made (world F.state paused.master) }
        ensures { MatchResult result
            (λ r. AreSeatsAgain paused.book (drop paused.start paused.master.knows.history) r.1.items)
            (λ e. e.1 ≡ paused) }
    {
        paused.show_valid();
        let Files {
            book,
            total,
            row,
            seats,
            mark,
        } = match refile::<F, B>(alloc, blank, &paused) {
            Ok(files) => files,
            Err(fault) => return Err((fault, paused)),
        };
        let state = State {
            alloc,
            master: paused.into_master(),
            book,
            total,
            row,
            is_refused: false,
        };
        let store = Store {
            shared: Shared::new(state, mark),
        };
        Ok((store, seats))
    }
}
