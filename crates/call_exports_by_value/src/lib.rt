// The calls by value, with replies in numbers but for the entries; check 0 is among their checks, unless an entry's board is known
// to pass it.
#![tactic(auto)]

ghost use Rattle.std.specs.Prelude.{◌≡◌, true};
ghost use Rattle.paper_closure.specs.Passes as check;
ghost use Rattle.paper_entries.specs.Paper.Enter as paper;
ghost use Rattle.paper_entries.specs.Paper.Looking as looking;
ghost use Rattle.paper_entries.specs.Paper.EntryOf.{entry_of};
ghost use Rattle.paper_plans.specs.Paper.Planner as planning;
ghost use Rattle.call_reply_numbers.specs.ReplyNumbers.{row_reply_numbers, pair_reply_numbers, plan_reply_numbers};

use call_dock::Dock;
use call_reply_numbers::{PairReplyNumbers, PlanReplyNumbers, RowReplyNumbers};
use paper_board::{Board, Refusal};
use paper_entries::{Entered, Entry};

pub mod unchecked;

pub fn passes(dock: Dock) -> bool
    ensures { result ≡ check.passes dock.board }
{
    engine_check0::passes(&dock.board)
}

// An entry of any sort, with check 0 unless the board is known to pass it. The dock, made where check 0 is asked, and the `else` save a copy of
// the board: handed on by itself, or with an early `return`, it is copied once more.
#[tactic(auto, unfolding(paper_entries::specs::Paper::Enter::enter))]
pub fn enter(board: Board, entry: Entry, passing: bool) -> Entered
    requires { passing ≡ true → check.passes board ≡ true }
    ensures { result ≡ paper.enter board (entry_of entry) }
{
    if passing || passes(Dock { board }) {
        call_enter::enter(board, entry)
    } else {
        call_answers::refused(Refusal::Board, board)
    }
}

pub fn row(dock: Dock, job: i32) -> RowReplyNumbers
    ensures { result ≡ row_reply_numbers (looking.row dock.board job) }
{
    RowReplyNumbers::from(dock.row(job))
}

pub fn pair(dock: Dock, a: i32, b: i32) -> PairReplyNumbers
    ensures { result ≡ pair_reply_numbers (looking.pair dock.board a b) }
{
    PairReplyNumbers::from(dock.pair(a, b))
}

pub fn plan(dock: Dock, budget: i32) -> PlanReplyNumbers
    ensures { result ≡ plan_reply_numbers (planning.plan dock.board budget) }
{
    PlanReplyNumbers::from(dock.plan(budget))
}
