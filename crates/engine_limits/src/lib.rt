// The test of "the board handed in breaks a limit above, [or] keeps something twice that doesn't agree".
#![tactic(auto)]

ghost use Rattle.std.specs.Prelude.{◌≡◌};
ghost use Rattle.paper_board.specs.BoardTests.Decides.{Decides};
ghost use Rattle.paper_board.specs.BoardTests.WithinLimits as limits;
ghost use Rattle.engine_limits.specs.LimitsTested as parts;

use engine_agreement::agree;
use engine_places::place_holds;
use paper_board::{Board, Books};

fn places_hold(board: &Board) -> bool
    ensures { Decides result (parts.PlacesHeld board.now) }
{
    (0..Board::JOBS).all(|k| place_holds(board, k))
}

// The board's limits, its books aside.
pub fn within_limits(board: &Board) -> bool
    ensures { result ≡ limits.within_limits board.now }
{
    if board.jobs > Board::JOBS {
        return false;
    }
    places_hold(board) && agree(&board.after, &board.before)
}

pub fn books_within(books: Books) -> bool
    ensures { result ≡ limits.books_limits books }
{
    books.tally <= Board::TALLY
}
