// Updates: the least board above this one where one more fact holds, or none where a mark would have to change. Entries and
// rules go through the same ones. A board is altered in place, since to hand on a board is to copy it.
#![tactic(auto)]

ghost use Rattle.std.specs.Prelude.{◌≡◌, true, ◌<◌};
ghost use Rattle.std.proofs.Math.Option.{some};
ghost use Rattle.ground_arithmetic.specs.Time.{Moderate};
ghost use Rattle.paper_board.specs.declared.Board as boards;
ghost use Rattle.paper_board.specs.Paper.Limits.{job_limit, Within};
ghost use Rattle.paper_board.specs.Paper.Facts.{is_bound, is_valid, AboutJobs};
ghost use Rattle.paper_board.specs.Paper.Parts.{filled};
ghost use Rattle.paper_board.specs.Paper.Values.{side_of, turned, fact_of};
ghost use Rattle.paper_rules.specs.Update.Updates as updates;
ghost use Rattle.paper_rules.specs.Update.Alone.{ArraysAlone, MarksAlone};
ghost use Rattle.paper_rules.specs.Update.Possibly.{possibly};
ghost use Rattle.engine_updates.specs.Applicable.{Applicable};

use engine_arcs::{is_joined, join};
use engine_bounds::{is_bounded, tighten};
use engine_strikes::exclude;
use paper_board::Board;
use paper_board::facts::{Fact, Side};

// "Only an entry makes a job valid."
#[tactic(auto, unfolding(paper_rules::specs::Update::Updates::update))]
fn validate(board: &mut Board, job: usize) -> Option<()>
    requires { job < job_limit }
    ensures kept { MarksAlone board.old board.new }
    ensures updated { updates.update board.old (is_valid job) ≡ possibly result board.new }
{
    if board.marks[job] == Board::INVALID {
        return None;
    }
    board.marks[job] = Board::VALID;
    Some(())
}

// A bound on one side of a window; a job that no longer fits its window is struck out at once.
fn bound(board: &mut Board, side: Side, job: usize, time: i32) -> Option<()>
    requires { (job < board.old.jobs) × Within board.old × Moderate time }
    ensures kept { ArraysAlone board.old board.new }
    ensures updated { updates.update board.old (is_bound (side_of side) job (turned (side_of side) time)) ≡ possibly result board.new }
{
    if tighten(board, side, job, time) {
        return Some(());
    }
    exclude(board, job)
}

// The board with one more fact; or none, where a mark would have to change, and then its arrays are of no account.
#[tactic(auto, unfolding(paper_rules::specs::Update::Updates::update))]
pub fn update(board: &mut Board, fact: Fact) -> Option<()>
    requires { Within board.old × AboutJobs board.old.jobs (fact_of fact) × Applicable fact }
    ensures kept { ArraysAlone board.old board.new }
    ensures updated { updates.update board.old (fact_of fact) ≡ possibly result board.new }
{
    match fact {
        Fact::Arc { from, to } => {
            join(board, from, to);
            Some(())
        }
        Fact::Bound { side, job, time } => bound(board, side, job, time),
        Fact::Valid { job } => validate(board, job),
        Fact::Invalid { job } => exclude(board, job),
    }
}

// Does the board show the fact already, so that the update by it changes nothing?
#[tactic(auto, using(paper_rules::specs::Update::Shown::showing, std::proofs::lemmas::Int::wraps))]
pub fn is_shown(board: &Board, fact: Fact) -> bool
    requires { AboutJobs job_limit (fact_of fact) }
    ensures { (b : boards.Board) → let c = filled b b.lengths board.now.earliest board.now.latest board.now.marks board.now.after b.before in Within c → result ≡ true → updates.update c (fact_of fact) ≡ some c }
{
    match fact {
        Fact::Arc { from, to } => is_joined(board, from, to),
        Fact::Bound { side, job, time } => is_bounded(board, side, job, time),
        Fact::Valid { job } => board.marks[job] == Board::VALID,
        Fact::Invalid { job } => board.marks[job] == Board::INVALID,
    }
}
