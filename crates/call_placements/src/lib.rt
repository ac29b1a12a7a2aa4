// What a planner's try asks of a job, the starts of the jobs placed, in their order, and the planner's answers.
#![tactic(auto)]

ghost use Rattle.std.specs.Prelude.{◌≡◌, ◌&&◌, ◌<◌, eqb, ◌+ℤ◌};
ghost use Rattle.std.specs.Int.Signed.{le_z};
ghost use Rattle.ground_sets.specs.Bit.{intersection};
ghost use Rattle.ground_arithmetic.specs.Time.{greater};
ghost use Rattle.paper_board.specs.Paper.Limits.{Within, IsTime, job_limit};
ghost use Rattle.paper_board.specs.Paper.View.{view};
ghost use Rattle.paper_rules.specs.Paper.Rules.{E, L};
ghost use Rattle.paper_plans.specs.Paper.Planner as paper;
ghost use Rattle.call_placements.specs.Stack.{jobs_of};
ghost use Rattle.call_placements.specs.PlannerState.{EndInTime};

use paper_board::Board;
use paper_plans::{PlanAnswer, Planned, TriesEnd};
use stack::Stack;

pub mod stack;

// An answer without a plan.
pub fn unplanned(answer: PlanAnswer) -> Planned
    ensures { result ≡ paper.unplanned answer }
{
    Planned {
        answer,
        placed: 0,
        starts: [0; Board::JOBS],
    }
}

// When a job would start and end that is placed where the dock is free from a minute on: it starts at "the later of E and the end of the job
// placed before, or E where none is". Before any job the dock counts as free from the first minute on.
#[derive(Clone, Copy)]
pub struct Slot {
    pub start: i32,
    pub end: i32,
}

impl Slot {
    pub fn of(board: &Board, job: usize, free: i32) -> Self
        requires { Within board.now × (job < job_limit) × IsTime free }
        ensures start { result.start ≡ greater (E (view board.now) job) free }
        ensures end { result.end ≡ result.start +ℤ L (view board.now) job }
    {
        let start = ground_arithmetic::greater(board.earliest[job], free);
        let end = ground_arithmetic::sum(start, board.lengths[job]);
        Self { start, end }
    }
}

// "A try places the job if every valid job with an arc to it is placed and its end is at most D"
pub fn places(before: u64, unplaced: u64, end: i32, latest: i32) -> bool
    ensures { result ≡ eqb (intersection before unplaced) 0 && le_z end latest }
{
    ground_sets::intersection(before, unplaced) == 0 && end <= latest
}

// The starts of the jobs placed, one after the other in their order.
fn starts(board: &Board, stack: &Stack) -> [i32; Board::JOBS]
    requires { Within board.now × EndInTime board.now (jobs_of stack.now) }
    ensures { result ≡ paper.start_list (view board.now) (jobs_of stack.now) }
{
    let mut starts = [0; Board::JOBS];
    let mut free = Board::FIRST_MINUTE;
    for placed in stack.placed() {
        let slot = Slot::of(board, placed.job, free);
        starts[placed.job] = slot.start;
        free = slot.end;
    }
    starts
}

// The answer where all valid jobs are placed.
pub fn found(board: &Board, stack: &Stack, valid: u64, tries: u32) -> Planned
    requires { Within board.now × EndInTime board.now (jobs_of stack.now) }
    ensures { result ≡ record { answer = Ok (TriesEnd.Found tries); placed = valid; starts = paper.start_list (view board.now) (jobs_of stack.now) } }
{
    Planned {
        answer: Ok(TriesEnd::Found(tries)),
        placed: valid,
        starts: starts(board, stack),
    }
}
