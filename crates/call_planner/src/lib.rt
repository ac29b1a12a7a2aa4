// "Planner": the tries over the valid jobs in ascending number, on a board that has passed check 0.
#![tactic(auto)]

ghost use Rattle.std.specs.Prelude.{◌≡◌, true};
ghost use Rattle.paper_board.specs.Paper.Limits.{Within};
ghost use Rattle.paper_board.specs.Paper.View.{view};
ghost use Rattle.paper_closure.specs.Passes.{passes};
ghost use Rattle.paper_plans.specs.Paper.Planner as paper;
ghost use Rattle.paper_plans.specs.Paper.Tries as definition;

use call_checks::{budget_check, budget_value};
use call_placements::stack::{Placed, Stack};
use call_placements::{Slot, found, places, unplanned};
use engine_marks::marked;
use ground_walks::Members;
use paper_board::Board;
use paper_plans::{Planned, TriesEnd};

// The tries. The jobs placed so far are on the stack; those of `left` are still to be tried after them, and the dock is free from minute
// `free` on.
fn search(board: &Board, budget: u32) -> Planned
    requires { Within board.now }
    ensures { result ≡ paper.planned_within (view board.now) budget (definition.tries (view board.now) (paper.valid_jobs (view board.now))) }
{
    let valid = marked(board, Board::VALID);
    let mut stack = Stack::empty();
    let mut unplaced = valid;
    let mut left = Members::of(valid);
    let mut free = Board::FIRST_MINUTE;
    let mut tries = 0;
    while unplaced != 0 {
        let Some(job) = left.next() else {
            let Some(last) = stack.pop() else {
                return unplanned(Ok(TriesEnd::None(tries)));
            };
            unplaced = ground_sets::with(unplaced, last.job);
            left = Members::of(last.left);
            free = last.free;
            continue;
        };
        if tries == budget {
            return unplanned(Ok(TriesEnd::Spent(budget)));
        }
        tries += 1;
        let end = Slot::of(board, job, free).end;
        if places(board.before[job], unplaced, end, board.latest[job]) {
            stack.push(Placed {
                job,
                left: left.left,
                free,
            });
            unplaced = ground_sets::without(unplaced, job);
            left = Members::of(unplaced);
            free = end;
        }
    }
    found(board, &stack, valid, tries)
}

#[tactic(auto, using(paper_plans::proofs::PlanLaws::budget_within, paper_closure::proofs::PassesClosed::passes_within), unfolding(paper_plans::specs::Paper::Planner::plan))]
pub fn plan(board: Board, budget: i32) -> Planned
    requires { passes board ≡ true }
    ensures { result ≡ paper.plan board budget }
{
    if let Err(refusal) = budget_check(budget) {
        return unplanned(Err(refusal));
    }
    search(&board, budget_value(budget))
}
