// "the host's own board is altered where it is kept": a board kept in a local, lent to the call, and handed on.
ghost use Rattle.std.specs.Prelude.{◌≡◌};
ghost use Rattle.paper_entries.specs.Paper.Enter as paper;
ghost use Rattle.paper_entries.specs.Paper.EntryOf.{entry_of};

use paper_board::Board;
use paper_entries::{Entered, Entry};

pub fn enter(board: Board, entry: Entry) -> Entered
    ensures { result ≡ paper.enter board (entry_of entry) }
{
    let mut kept = board;
    let answer = call_in_place::enter(&mut kept, entry);
    Entered {
        answer,
        board: kept,
    }
}
