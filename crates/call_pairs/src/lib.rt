// "Pair of A, B: 0 no arc, 1 A to B, 2 B to A, 3 both; and the gap": on a board that has passed check 0.
#![tactic(auto)]

ghost use Rattle.std.specs.Prelude.{◌≡◌, true, cond, ◌+◌, ◌<◌, ◌-ℤ◌};
ghost use Rattle.paper_board.specs.Paper.Limits.{Within, job_limit};
ghost use Rattle.paper_board.specs.Paper.View.{row_of, view};
ghost use Rattle.paper_board.specs.Paper.Tests.{live};
ghost use Rattle.paper_closure.specs.Passes.{passes};
ghost use Rattle.paper_entries.specs.Paper.Looking as looking;

use call_checks::{index, pair_checks};
use paper_board::Board;
use paper_entries::{PairAnswer, ShownPair};

// "0 no arc, 1 A to B, 2 B to A, 3 both"
fn arcs(forth: bool, back: bool) -> u8
    ensures { result ≡ cond forth 1 0 + cond back 2 0 }
{
    u8::from(forth) + 2 * u8::from(back)
}

fn shown_arcs(board: &Board, a: usize, b: usize) -> u8
    requires { (a < job_limit) × (b < job_limit) }
    ensures { result ≡ looking.arcs board.now a b }
{
    arcs(
        ground_sets::has(board.after[a], b),
        ground_sets::has(board.after[b], a),
    )
}

// "the gap, which is E of B minus D of A and may be negative"
fn shown_gap(board: &Board, a: usize, b: usize) -> i32
    requires { Within board.now × (a < job_limit) × (b < job_limit) }
    ensures { result ≡ (row_of board.now b).earliest -ℤ (row_of board.now a).latest }
{
    ground_arithmetic::gap(board.earliest[b], board.latest[a])
}

// Is the job one that may still take place?
#[tactic(auto, unfolding(paper_board::specs::Paper::Tests::live))]
fn is_live(board: &Board, job: usize) -> bool
    requires { job < job_limit }
    ensures { result ≡ live (view board.now) job }
{
    job < board.jobs && board.marks[job] != Board::INVALID
}

// "If either is invalid, both numbers are 0."
fn shown_pair(board: &Board, a: usize, b: usize) -> ShownPair
    requires { Within board.now × (a < job_limit) × (b < job_limit) }
    ensures { Ok result ≡ looking.pair_shown board.now a b }
{
    if is_live(board, a) && is_live(board, b) {
        ShownPair {
            arcs: shown_arcs(board, a, b),
            gap: shown_gap(board, a, b),
        }
    } else {
        ShownPair { arcs: 0, gap: 0 }
    }
}

#[tactic(auto, using(paper_entries::proofs::CallNumbers::pair_numbers, paper_closure::proofs::PassesClosed::passes_within), unfolding(paper_entries::specs::Paper::Looking::pair))]
pub fn pair(board: Board, a: i32, b: i32) -> PairAnswer
    requires { passes board ≡ true }
    ensures { result ≡ looking.pair board a b }
{
    pair_checks(board.jobs, a, b)?;
    Ok(shown_pair(&board, index(a), index(b)))
}
