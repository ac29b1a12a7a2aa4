// "Row of a job: mark, E, D, the set before it and the set after it.": on a board that has passed check 0.
#![tactic(auto)]

ghost use Rattle.std.specs.Prelude.{◌≡◌, true, ◌<◌};
ghost use Rattle.paper_board.specs.Paper.Limits.{job_limit};
ghost use Rattle.paper_closure.specs.Passes.{passes};
ghost use Rattle.paper_entries.specs.Paper.Looking as looking;

use call_checks::{index, job_check};
use paper_board::Board;
use paper_entries::{RowAnswer, ShownRow};

fn shown_row(board: &Board, job: usize) -> ShownRow
    requires { job < job_limit }
    ensures { Ok result ≡ looking.row_shown board.now job }
{
    ShownRow {
        mark: board.marks[job],
        earliest: board.earliest[job],
        latest: board.latest[job],
        before: board.before[job],
        after: board.after[job],
    }
}

#[tactic(auto, using(paper_entries::proofs::CallNumbers::job_numbers, paper_closure::proofs::PassesClosed::passes_within), unfolding(paper_entries::specs::Paper::Looking::row))]
pub fn row(board: Board, job: i32) -> RowAnswer
    requires { passes board ≡ true }
    ensures { result ≡ looking.row board job }
{
    job_check(board.jobs, job)?;
    Ok(shown_row(&board, index(job)))
}
