// The host's own board: the entry calls alter it where it is kept, and the reading calls look at it there, with the same answers as the calls
// by value. The paper has each call in both manners, so that its name stands here and at `Dock`, which takes its board by value.
#![tactic(auto)]

ghost use Rattle.std.specs.Prelude.{◌≡◌};
ghost use Rattle.paper_entries.specs.Paper.Entry as entry;
ghost use Rattle.paper_entries.specs.Paper.Enter as paper;
ghost use Rattle.paper_entries.specs.Paper.Looking as looking;
ghost use Rattle.paper_entries.specs.Paper.EntryOf.{entry_of};
ghost use Rattle.paper_plans.specs.Paper.Planner as planning;

use call_dock::Dock;
use paper_board::Board;
use paper_entries::{Answer, Entry, PairAnswer, RowAnswer};
use paper_plans::Planned;

// An entry of any sort.
pub fn enter(board: &mut Board, entry: Entry) -> Answer
    ensures { record { answer = result; board = board.new } ≡ paper.enter board.old (entry_of entry) }
{
    let dock = Dock { board: *board };
    let entered = dock.enter(entry);
    *board = entered.board;
    entered.answer
}

// "Addition: length, E, D, mark 0 or 1; gives the job's number."
pub fn addition(board: &mut Board, length: i32, earliest: i32, latest: i32, mark: i32) -> Answer
    ensures { record { answer = result; board = board.new } ≡ paper.enter board.old (entry.addition length earliest latest mark) }
{
    enter(board, Entry::addition(length, earliest, latest, mark))
}

// "Arc A to B: if both take place, A ends no later than B starts."
pub fn arc(board: &mut Board, from: i32, to: i32) -> Answer
    ensures { record { answer = result; board = board.new } ≡ paper.enter board.old (entry.other (entry.arc from to)) }
{
    enter(board, Entry::arc(from, to))
}

// "Mark a job 1 or 2."
pub fn mark(board: &mut Board, job: i32, mark: i32) -> Answer
    ensures { record { answer = result; board = board.new } ≡ paper.enter board.old (entry.other (entry.mark job mark)) }
{
    enter(board, Entry::mark(job, mark))
}

// "Cut a job with a window E, D: the later E and the earlier D hold."
pub fn cut(board: &mut Board, job: i32, earliest: i32, latest: i32) -> Answer
    ensures { record { answer = result; board = board.new } ≡ paper.enter board.old (entry.other (entry.cut job earliest latest)) }
{
    enter(board, Entry::cut(job, earliest, latest))
}

// "Row of a job: mark, E, D, the set before it and the set after it."
pub fn row(board: &Board, job: i32) -> RowAnswer
    ensures { result ≡ looking.row board.now job }
{
    let dock = Dock { board: *board };
    dock.row(job)
}

// "Pair of A, B: 0 no arc, 1 A to B, 2 B to A, 3 both; and the gap"
pub fn pair(board: &Board, a: i32, b: i32) -> PairAnswer
    ensures { result ≡ looking.pair board.now a b }
{
    let dock = Dock { board: *board };
    dock.pair(a, b)
}

// "It takes the board and a budget, 0 to 1000000." and "alters nothing".
pub fn plan(board: &Board, budget: i32) -> Planned
    ensures { result ≡ planning.plan board.now budget }
{
    let dock = Dock { board: *board };
    dock.plan(budget)
}
