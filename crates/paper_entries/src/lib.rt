// What the entry calls take, and what the calls on a board hand back.
#![tactic(auto)]

ghost use Rattle.std.specs.Prelude.{◌≡◌};
ghost use Rattle.paper_entries.specs.Paper.Entry as paper;
ghost use Rattle.paper_entries.specs.Paper.EntryOf.{entry_of};

use paper_board::{Board, Refusal};

// An entry with any numbers.
#[derive(Clone, Copy)]
pub enum Entry {
    Addition {
        length: i32,
        earliest: i32,
        latest: i32,
        mark: i32,
    },
    Arc {
        from: i32,
        to: i32,
    },
    Mark {
        job: i32,
        mark: i32,
    },
    Cut {
        job: i32,
        earliest: i32,
        latest: i32,
    },
}

impl Entry {
    // "Addition: length, E, D, mark 0 or 1"
    pub fn addition(length: i32, earliest: i32, latest: i32, mark: i32) -> Entry
        ensures { entry_of result ≡ paper.addition length earliest latest mark }
    {
        Entry::Addition {
            length,
            earliest,
            latest,
            mark,
        }
    }

    // "Arc A to B: if both take place, A ends no later than B starts."
    pub fn arc(from: i32, to: i32) -> Entry
        ensures { entry_of result ≡ paper.other (paper.arc from to) }
    {
        Entry::Arc { from, to }
    }

    // "Mark a job 1 or 2."
    pub fn mark(job: i32, mark: i32) -> Entry
        ensures { entry_of result ≡ paper.other (paper.mark job mark) }
    {
        Entry::Mark { job, mark }
    }

    // "Cut a job with a window E, D: the later E and the earlier D hold."
    pub fn cut(job: i32, earliest: i32, latest: i32) -> Entry
        ensures { entry_of result ≡ paper.other (paper.cut job earliest latest) }
    {
        Entry::Cut {
            job,
            earliest,
            latest,
        }
    }
}

// The answer to an entry that is accepted has the number of the job added, where one was.
pub type Answer = Result<Option<usize>, Refusal>;

// The answer and the board after the entry.
#[derive(Clone, Copy)]
pub struct Entered {
    pub answer: Answer,
    pub board: Board,
}

// What a job's row shows, with its sets as words, bit k for job k.
#[derive(Clone, Copy)]
pub struct ShownRow {
    pub mark: u8,
    pub earliest: i32,
    pub latest: i32,
    pub before: u64,
    pub after: u64,
}

pub type RowAnswer = Result<ShownRow, Refusal>;

// The arcs between two jobs (0 none, 1 first to second, 2 second to first, 3 both: the paper's own numbers) and the gap.
#[derive(Clone, Copy)]
pub struct ShownPair {
    pub arcs: u8,
    pub gap: i32,
}

pub type PairAnswer = Result<ShownPair, Refusal>;
