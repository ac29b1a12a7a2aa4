// Check 0: "the board handed in breaks a limit above, keeps something twice that doesn't agree, or isn't closed over what it
// shows".
#![tactic(auto)]

ghost use Rattle.std.specs.Prelude.{◌≡◌};
ghost use Rattle.paper_closure.specs.Passes as check;

use engine_limits::{books_within, within_limits};
use engine_marks::Marks;
use engine_search::find;
use paper_board::Board;
use paper_board::facts::Fact;

// A board within its limits is closed over what it shows where nothing is left to infer.
pub fn passes(board: &Board) -> bool
    ensures { result ≡ check.passes board.now }
{
    if !within_limits(board) || !books_within(board.books) {
        return false;
    }
    let inferred: Option<Fact> = find(board, Marks::of(board));
    inferred.is_none()
}
