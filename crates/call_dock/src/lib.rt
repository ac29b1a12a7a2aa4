// A dock with its board, and the calls that the paper names: the board goes in and comes back with the answer.
#![tactic(auto)]

ghost use Rattle.std.specs.Prelude.{◌≡◌};
ghost use Rattle.paper_closure.specs.Passes as check;
ghost use Rattle.paper_entries.specs.Paper.Entry as entry;
ghost use Rattle.paper_entries.specs.Paper.Enter as paper;
ghost use Rattle.paper_entries.specs.Paper.EntryOf.{entry_of};
ghost use Rattle.paper_entries.specs.Paper.Looking as looking;
ghost use Rattle.paper_plans.specs.Paper.Planner as planning;

use engine_check0::passes;
use paper_board::{Board, Refusal};
use paper_entries::{Entered, Entry, PairAnswer, RowAnswer};
use paper_plans::Planned;

#[derive(Clone, Copy)]
pub struct Dock {
    pub board: Board,
}

impl Dock {
    // Does the board pass check 0, "breaks a limit above, keeps something twice that doesn't agree, or isn't closed over
    // what it shows"?
    fn passes(self) -> bool
        ensures { result ≡ check.passes self.board }
    {
        passes(&self.board)
    }

    // An entry of any sort.
    #[tactic(auto, unfolding(paper_entries::specs::Paper::Enter::enter))]
    pub fn enter(self, entry: Entry) -> Entered
        ensures { result ≡ paper.enter self.board (entry_of entry) }
    {
        if self.passes() {
            call_enter::enter(self.board, entry)
        } else {
            call_answers::refused(Refusal::Board, self.board)
        }
    }

    // "Addition: length, E, D, mark 0 or 1; gives the job's number."
    pub fn addition(self, length: i32, earliest: i32, latest: i32, mark: i32) -> Entered
        ensures { result ≡ paper.enter self.board (entry.addition length earliest latest mark) }
    {
        self.enter(Entry::addition(length, earliest, latest, mark))
    }

    // "Arc A to B: if both take place, A ends no later than B starts."
    pub fn arc(self, from: i32, to: i32) -> Entered
        ensures { result ≡ paper.enter self.board (entry.other (entry.arc from to)) }
    {
        self.enter(Entry::arc(from, to))
    }

    // "Mark a job 1 or 2."
    pub fn mark(self, job: i32, mark: i32) -> Entered
        ensures { result ≡ paper.enter self.board (entry.other (entry.mark job mark)) }
    {
        self.enter(Entry::mark(job, mark))
    }

    // "Cut a job with a window E, D: the later E and the earlier D hold."
    pub fn cut(self, job: i32, earliest: i32, latest: i32) -> Entered
        ensures { result ≡ paper.enter self.board (entry.other (entry.cut job earliest latest)) }
    {
        self.enter(Entry::cut(job, earliest, latest))
    }

    // "Row of a job: mark, E, D, the set before it and the set after it."
    #[tactic(auto, unfolding(paper_entries::specs::Paper::Looking::row))]
    pub fn row(self, job: i32) -> RowAnswer
        ensures { result ≡ looking.row self.board job }
    {
        if self.passes() {
            call_rows::row(self.board, job)
        } else {
            Err(Refusal::Board)
        }
    }

    // "Pair of A, B: 0 no arc, 1 A to B, 2 B to A, 3 both; and the gap"
    #[tactic(auto, unfolding(paper_entries::specs::Paper::Looking::pair))]
    pub fn pair(self, a: i32, b: i32) -> PairAnswer
        ensures { result ≡ looking.pair self.board a b }
    {
        if self.passes() {
            call_pairs::pair(self.board, a, b)
        } else {
            Err(Refusal::Board)
        }
    }

    // "It takes the board and a budget, 0 to 1000000."
    #[tactic(auto, unfolding(paper_plans::specs::Paper::Planner::plan))]
    pub fn plan(self, budget: i32) -> Planned
        ensures { result ≡ planning.plan self.board budget }
    {
        if self.passes() {
            call_planner::plan(self.board, budget)
        } else {
            call_placements::unplanned(Err(Refusal::Board))
        }
    }
}
