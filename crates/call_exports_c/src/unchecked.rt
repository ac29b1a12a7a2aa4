// The calls without check 0: they require a board that passes it and don't test it, so that a host in C has to see to that.
ghost use Rattle.std.specs.Prelude.{◌≡◌, true};
ghost use Rattle.paper_closure.specs.Passes.{passes};
ghost use Rattle.paper_entries.specs.Paper.Entry as entry;
ghost use Rattle.paper_entries.specs.Paper.Enter as paper;
ghost use Rattle.paper_entries.specs.Paper.Looking as looking;
ghost use Rattle.paper_plans.specs.Paper.Planner as planning;
ghost use Rattle.call_reply_numbers.specs.ReplyNumbers.{replied, row_reply_numbers, pair_reply_numbers, plan_reply_numbers};

use call_reply_numbers::{PairReplyNumbers, PlanReplyNumbers, ReplyNumbers, RowReplyNumbers};
use paper_board::Board;

// "Addition: length, E, D, mark 0 or 1; gives the job's number."
#[unsafe(no_mangle)]
pub extern "C" fn bayboard_unchecked_addition(
    board: &mut Board,
    length: i32,
    earliest: i32,
    latest: i32,
    mark: i32,
) -> ReplyNumbers
    requires { passes board.old ≡ true }
    ensures { record { reply = result; board = board.new } ≡ replied (paper.enter board.old (entry.addition length earliest latest mark)) }
{
    call_exports::unchecked::bayboard_unchecked_addition(board, length, earliest, latest, mark)
}

// "Arc A to B: if both take place, A ends no later than B starts."
#[unsafe(no_mangle)]
pub extern "C" fn bayboard_unchecked_arc(board: &mut Board, from: i32, to: i32) -> ReplyNumbers
    requires { passes board.old ≡ true }
    ensures { record { reply = result; board = board.new } ≡ replied (paper.enter board.old (entry.other (entry.arc from to))) }
{
    call_exports::unchecked::bayboard_unchecked_arc(board, from, to)
}

// "Mark a job 1 or 2."
#[unsafe(no_mangle)]
pub extern "C" fn bayboard_unchecked_mark(board: &mut Board, job: i32, mark: i32) -> ReplyNumbers
    requires { passes board.old ≡ true }
    ensures { record { reply = result; board = board.new } ≡ replied (paper.enter board.old (entry.other (entry.mark job mark))) }
{
    call_exports::unchecked::bayboard_unchecked_mark(board, job, mark)
}

// "Cut a job with a window E, D: the later E and the earlier D hold."
#[unsafe(no_mangle)]
pub extern "C" fn bayboard_unchecked_cut(
    board: &mut Board,
    job: i32,
    earliest: i32,
    latest: i32,
) -> ReplyNumbers
    requires { passes board.old ≡ true }
    ensures { record { reply = result; board = board.new } ≡ replied (paper.enter board.old (entry.other (entry.cut job earliest latest))) }
{
    call_exports::unchecked::bayboard_unchecked_cut(board, job, earliest, latest)
}

// "Row of a job: mark, E, D, the set before it and the set after it."
#[unsafe(no_mangle)]
pub extern "C" fn bayboard_unchecked_row(board: &Board, job: i32) -> RowReplyNumbers
    requires { passes board.now ≡ true }
    ensures { result ≡ row_reply_numbers (looking.row board.now job) }
{
    call_exports::unchecked::bayboard_unchecked_row(board, job)
}

// "Pair of A, B: 0 no arc, 1 A to B, 2 B to A, 3 both; and the gap"
#[unsafe(no_mangle)]
pub extern "C" fn bayboard_unchecked_pair(board: &Board, a: i32, b: i32) -> PairReplyNumbers
    requires { passes board.now ≡ true }
    ensures { result ≡ pair_reply_numbers (looking.pair board.now a b) }
{
    call_exports::unchecked::bayboard_unchecked_pair(board, a, b)
}

// "It takes the board and a budget, 0 to 1000000." and "alters nothing".
#[unsafe(no_mangle)]
pub extern "C" fn bayboard_unchecked_plan(board: &Board, budget: i32) -> PlanReplyNumbers
    requires { passes board.now ≡ true }
    ensures { result ≡ plan_reply_numbers (planning.plan board.now budget) }
{
    call_exports::unchecked::bayboard_unchecked_plan(board, budget)
}
