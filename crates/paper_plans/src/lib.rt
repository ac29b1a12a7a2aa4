// What the planner hands back.
#![tactic(auto)]

use paper_board::{Board, Refusal};

// How the tries ended, and the number of tries. None is one of the three ends, with its number, and no absent value.
#[derive(Clone, Copy)]
pub enum TriesEnd {
    // All valid jobs are placed.
    Found(u32),
    // The empty list is exhausted.
    None(u32),
    // The tries would take more than the budget, which is the number here.
    Spent(u32),
}

pub type PlanAnswer = Result<TriesEnd, Refusal>;

// The answer with the plan: the placed jobs as a word, bit k for job k, and the start of each; 0 for the others. Without a plan
// no job is placed.
#[derive(Clone, Copy)]
pub struct Planned {
    pub answer: PlanAnswer,
    pub placed: u64,
    pub starts: [i32; Board::JOBS],
}
