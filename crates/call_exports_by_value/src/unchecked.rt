// The reading calls by value without check 0, on a board that passes it, with their replies in numbers. They stand beside those with check 0 and
// take no flag for it: each is called at one place and compiled as a part of it, so that no board is copied in between.
ghost use Rattle.std.specs.Prelude.{◌≡◌, true};
ghost use Rattle.paper_closure.specs.Passes.{passes};
ghost use Rattle.paper_entries.specs.Paper.Looking as looking;
ghost use Rattle.paper_plans.specs.Paper.Planner as planning;
ghost use Rattle.call_reply_numbers.specs.ReplyNumbers.{row_reply_numbers, pair_reply_numbers, plan_reply_numbers};

use call_dock::Dock;
use call_reply_numbers::{PairReplyNumbers, PlanReplyNumbers, RowReplyNumbers};

pub fn row(dock: Dock, job: i32) -> RowReplyNumbers
    requires { passes dock.board ≡ true }
    ensures { result ≡ row_reply_numbers (looking.row dock.board job) }
{
    RowReplyNumbers::from(call_rows::row(dock.board, job))
}

pub fn pair(dock: Dock, a: i32, b: i32) -> PairReplyNumbers
    requires { passes dock.board ≡ true }
    ensures { result ≡ pair_reply_numbers (looking.pair dock.board a b) }
{
    PairReplyNumbers::from(call_pairs::pair(dock.board, a, b))
}

pub fn plan(dock: Dock, budget: i32) -> PlanReplyNumbers
    requires { passes dock.board ≡ true }
    ensures { result ≡ plan_reply_numbers (planning.plan dock.board budget) }
{
    PlanReplyNumbers::from(call_planner::plan(dock.board, budget))
}
