// Arcs put on a board, in both words that keep them.
#![tactic(auto)]

ghost use Rattle.std.specs.Prelude.{◌≡◌, ◌<◌, get_or, set};
ghost use Rattle.std.proofs.Math.Option.{some};
ghost use Rattle.ground_sets.specs.Bit.{with};
ghost use Rattle.paper_board.specs.declared.Board as boards;
ghost use Rattle.paper_board.specs.Paper.Limits.{job_limit, Within};
ghost use Rattle.paper_board.specs.Paper.Facts.{is_arc};
ghost use Rattle.paper_board.specs.Paper.Parts.{filled};
ghost use Rattle.paper_rules.specs.Update.Updates as updates;
ghost use Rattle.paper_rules.specs.Update.Shown.{arc_shown};
ghost use Rattle.engine_arcs.specs.Arcs.{ArcsAlone};

use paper_board::Board;

// An arc, in both words that keep it. It takes these two arrays alone: so its clauses say all that it alters.
pub fn link(before: &mut [u64; Board::JOBS], after: &mut [u64; Board::JOBS], from: usize, to: usize)
    requires { (from < job_limit) × (to < job_limit) }
    ensures before_after { before.new ≡ set before.old to (with (get_or before.old to 0) from) }
    ensures after_after { after.new ≡ set after.old from (with (get_or after.old from 0) to) }
{
    before[to] = ground_sets::with(before[to], from);
    after[from] = ground_sets::with(after[from], to);
}

// Does the arc stand, or is one of its jobs invalid?
pub fn is_joined(board: &Board, from: usize, to: usize) -> bool
    requires { (from < job_limit) × (to < job_limit) }
    ensures { result ≡ arc_shown board.now from to }
{
    board.marks[from] == Board::INVALID
        || board.marks[to] == Board::INVALID
        || ground_sets::has(board.after[from], to)
}

// An arc between jobs that may both take place; other arcs count as shown.
#[tactic(auto, using(paper_rules::specs::Update::Shown::showing))]
pub fn join(board: &mut Board, from: usize, to: usize)
    requires { (from < job_limit) × (to < job_limit) }
    ensures kept { ArcsAlone board.old board.new }
    ensures joined { (b : boards.Board) → from < b.jobs → to < b.jobs → let c = filled b b.lengths b.earliest b.latest board.old.marks board.old.after board.old.before in Within c → updates.update c (is_arc from to) ≡ some (filled b b.lengths b.earliest b.latest board.old.marks board.new.after board.new.before) }
{
    if !is_joined(board, from, to) {
        link(&mut board.before, &mut board.after, from, to);
    }
}
