// The test of what one place of a board holds: nothing, an invalid job, or a live one.
#![tactic(auto)]

ghost use Rattle.std.specs.Prelude.{◌≡◌, ◌<◌};
ghost use Rattle.paper_board.specs.Paper.Limits.{job_limit};
ghost use Rattle.paper_board.specs.BoardTests.Decides.{Decides};
ghost use Rattle.engine_places.specs.Place as parts;

use paper_board::Board;
use paper_board::range::{is_length, is_time};

// A place without a live job holds 0 but for its mark, and no arcs.
#[tactic(auto, using(crate::specs::Place::zero_tests))]
fn is_zero_place(board: &Board, k: usize) -> bool
    requires { k < job_limit }
    ensures { result ≡ parts.is_zero_place board.now k }
{
    board.lengths[k] == 0
        && board.earliest[k] == 0
        && board.latest[k] == 0
        && ground_sets::union(board.after[k], board.before[k]) == 0
}

// A live job's row fits, and no arc leads from it to itself.
fn is_live_place(board: &Board, k: usize) -> bool
    requires { k < job_limit }
    ensures { result ≡ parts.is_live_place board.now k }
{
    is_length(board.lengths[k])
        && is_time(board.earliest[k])
        && is_time(board.latest[k])
        && !ground_sets::has(board.after[k], k)
}

// What place k holds: nothing where there is no job, and else an invalid job or a live one.
#[tactic(auto, using(crate::specs::Place::placing))]
pub fn place_holds(board: &Board, k: usize) -> bool
    requires { k < job_limit }
    ensures { Decides result (parts.Place board.now k) }
{
    let mark = board.marks[k];
    if board.jobs <= k {
        return mark == 0 && is_zero_place(board, k);
    }
    if mark == Board::INVALID {
        return is_zero_place(board, k);
    }
    mark < Board::INVALID && is_live_place(board, k)
}
