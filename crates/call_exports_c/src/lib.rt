// The static library for hosts in C: the calls of `call_exports` under their C names, with the same clauses.
#![tactic(auto)]

ghost use Rattle.std.specs.Prelude.{◌≡◌};
ghost use Rattle.paper_board.specs.Paper.Limits.{empty_board};
ghost use Rattle.paper_board.specs.Paper.Parts.{empty_books};
ghost use Rattle.paper_closure.specs.Passes as check;
ghost use Rattle.paper_entries.specs.Paper.Entry as entry;
ghost use Rattle.paper_entries.specs.Paper.Enter as paper;
ghost use Rattle.paper_entries.specs.Paper.Looking as looking;
ghost use Rattle.paper_plans.specs.Paper.Planner as planning;
ghost use Rattle.call_reply_numbers.specs.ReplyNumbers.{replied, row_reply_numbers, pair_reply_numbers, plan_reply_numbers};

use call_reply_numbers::{PairReplyNumbers, PlanReplyNumbers, ReplyNumbers, RowReplyNumbers};
use paper_board::Board;

mod unchecked;
mod version;

// A board without jobs whose tally starts at 0.
#[unsafe(no_mangle)]
pub extern "C" fn bayboard_empty() -> Board
    ensures { result ≡ empty_board empty_books }
{
    call_exports::bayboard_empty()
}

// Does the board pass check 0? If so, the calls of `unchecked` may be made on it.
#[unsafe(no_mangle)]
pub extern "C" fn bayboard_passes(board: &Board) -> bool
    ensures { result ≡ check.passes board.now }
{
    call_exports::bayboard_passes(board)
}

// "Addition: length, E, D, mark 0 or 1; gives the job's number."
#[unsafe(no_mangle)]
pub extern "C" fn bayboard_addition(
    board: &mut Board,
    length: i32,
    earliest: i32,
    latest: i32,
    mark: i32,
) -> ReplyNumbers
    ensures { record { reply = result; board = board.new } ≡ replied (paper.enter board.old (entry.addition length earliest latest mark)) }
{
    call_exports::bayboard_addition(board, length, earliest, latest, mark)
}

// "Arc A to B: if both take place, A ends no later than B starts."
#[unsafe(no_mangle)]
pub extern "C" fn bayboard_arc(board: &mut Board, from: i32, to: i32) -> ReplyNumbers
    ensures { record { reply = result; board = board.new } ≡ replied (paper.enter board.old (entry.other (entry.arc from to))) }
{
    call_exports::bayboard_arc(board, from, to)
}

// "Mark a job 1 or 2."
#[unsafe(no_mangle)]
pub extern "C" fn bayboard_mark(board: &mut Board, job: i32, mark: i32) -> ReplyNumbers
    ensures { record { reply = result; board = board.new } ≡ replied (paper.enter board.old (entry.other (entry.mark job mark))) }
{
    call_exports::bayboard_mark(board, job, mark)
}

// "Cut a job with a window E, D: the later E and the earlier D hold."
#[unsafe(no_mangle)]
pub extern "C" fn bayboard_cut(
    board: &mut Board,
    job: i32,
    earliest: i32,
    latest: i32,
) -> ReplyNumbers
    ensures { record { reply = result; board = board.new } ≡ replied (paper.enter board.old (entry.other (entry.cut job earliest latest))) }
{
    call_exports::bayboard_cut(board, job, earliest, latest)
}

// "Row of a job: mark, E, D, the set before it and the set after it."
#[unsafe(no_mangle)]
pub extern "C" fn bayboard_row(board: &Board, job: i32) -> RowReplyNumbers
    ensures { result ≡ row_reply_numbers (looking.row board.now job) }
{
    call_exports::bayboard_row(board, job)
}

// "Pair of A, B: 0 no arc, 1 A to B, 2 B to A, 3 both; and the gap"
#[unsafe(no_mangle)]
pub extern "C" fn bayboard_pair(board: &Board, a: i32, b: i32) -> PairReplyNumbers
    ensures { result ≡ pair_reply_numbers (looking.pair board.now a b) }
{
    call_exports::bayboard_pair(board, a, b)
}

// "It takes the board and a budget, 0 to 1000000." and "alters nothing".
#[unsafe(no_mangle)]
pub extern "C" fn bayboard_plan(board: &Board, budget: i32) -> PlanReplyNumbers
    ensures { result ≡ plan_reply_numbers (planning.plan board.now budget) }
{
    call_exports::bayboard_plan(board, budget)
}
