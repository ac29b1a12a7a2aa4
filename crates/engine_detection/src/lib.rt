// Detectable precedence: what R3 infers where a window has moved: a job that can't come after another comes before it. It is sound and need
// not be complete: what it leaves out the search finds.
#![tactic(auto)]

ghost use Rattle.std.specs.Prelude.{◌<◌};
ghost use Rattle.ground_arithmetic.specs.Time.{Moderate};
ghost use Rattle.paper_board.specs.Paper.Limits.{job_limit};
ghost use Rattle.paper_board.specs.BoardTests.Sets.{Subset};
ghost use Rattle.engine_arcs.specs.Arcs.{ArcsAlone};
ghost use Rattle.engine_detection.specs.Detection.{WindowsInRange, BoardSound, Pair, Beside, Meeting, AllLive};

use engine_arcs::link;
use engine_ends::{Ends, found_at};
use engine_marks::Marks;
use engine_neighbours::Arcs;
use engine_pair_rules::is_late;
use engine_partners::kept_apart;
use engine_sums::bounds::{Bounds, Windows};
use ground_walks::Members;
use paper_board::Board;
use paper_board::facts::Side;

// The arc from `second` to `first`, where `second` would end too late after it.
fn detect(board: &mut Board, first: usize, second: usize)
    requires { (first < job_limit) × (second < job_limit) × WindowsInRange board.old }
    ensures kept { ArcsAlone board.old board.new }
    ensures sound { BoardSound (Pair first second) board.old board.new }
{
    let end = ground_arithmetic::sum(board.earliest[first], board.lengths[first]);
    if is_late(end, board.lengths[second], board.latest[second]) {
        link(&mut board.before, &mut board.after, second, first);
    }
}

// The arc between two jobs that may follow from the first one's bound on one side: a raised E puts others before it, a lowered D puts
// it before others.
fn detect_on(board: &mut Board, side: Side, job: usize, other: usize)
    requires { (job < job_limit) × (other < job_limit) × WindowsInRange board.old }
    ensures kept { ArcsAlone board.old board.new }
    ensures sound { BoardSound (Pair job other) board.old board.new }
{
    match side {
        Side::Early => detect(board, job, other),
        Side::Late => detect(board, other, job),
    }
}

// The arcs between `job` and each of `others` that follow from its bound on one side. Gives the ends of those that are new.
fn detect_beside(board: &mut Board, side: Side, job: usize, others: u64) -> Ends
    requires { (job < job_limit) × WindowsInRange board.old }
    ensures kept { ArcsAlone board.old board.new }
    ensures sound { BoardSound (Beside job others) board.old board.new }
{
    let known_before = board.before[job];
    let known_after = board.after[job];
    for k in Members::of(others) {
        detect_on(board, side, job, k);
    }
    let arcs = Arcs {
        before: &board.before,
        after: &board.after,
    };
    let into = ground_sets::difference(arcs.before[job], known_before);
    let onward = ground_sets::difference(arcs.after[job], known_after);
    found_at(job, into, onward, arcs)
}

// The arcs between each job of `due` and those of `others` that are not kept apart from it. Gives the ends of those that are new.
fn detect_each(board: &mut Board, side: Side, due: u64, others: u64, valid: u64) -> Ends
    requires { WindowsInRange board.old }
    ensures kept { ArcsAlone board.old board.new }
    ensures sound { BoardSound (Meeting due others) board.old board.new }
{
    let mut found = Ends::default();
    for job in Members::of(due) {
        let known = ground_sets::union(board.before[job], board.after[job]);
        let apart = kept_apart(job, valid, known);
        let near = ground_sets::difference(ground_sets::without(others, job), apart);
        let new = detect_beside(board, side, job, near);
        found = found | new;
    }
    found
}

// The last end of the jobs of a set on one side.
fn last_end(bounds: Bounds<'_>, set: u64) -> i32
    ensures { Moderate result }
{
    let mut last = Board::FIRST_MINUTE;
    for k in Members::of(set) {
        last = ground_arithmetic::greater(last, bounds.end(k));
    }
    last
}

// The jobs of a set whose ends on one side are so late that R3 may order them and one that ends at `limit` on the other side.
fn clashing(bounds: Bounds<'_>, set: u64, limit: i32) -> u64
    requires { Moderate limit }
    ensures { Subset result set }
{
    let mut found = 0;
    for k in Members::of(set) {
        if 0 < ground_arithmetic::sum(limit, bounds.end(k)) {
            found = ground_sets::with(found, k);
        }
    }
    found
}

// The live jobs to which those that are due may get arcs. For one that is due all are tested; for many the last of their ends
// rules most of them out at once.
fn candidates(side: Side, due: u64, live: u64, windows: Windows<'_>) -> u64
    ensures { Subset result live }
{
    if due.is_power_of_two() {
        return live;
    }
    let limit = last_end(windows.on(side), due);
    clashing(windows.on(side.other()), live, limit)
}

// The arcs that follow from the moved bounds of some live jobs on one side. Gives the ends of those that are new.
pub fn detect_arcs(board: &mut Board, side: Side, due: u64, marks: Marks) -> Ends
    requires { WindowsInRange board.old }
    ensures kept { ArcsAlone board.old board.new }
    ensures sound { BoardSound (AllLive marks.live) board.old board.new }
{
    let moved = ground_sets::intersection(due, marks.live);
    if moved == 0 {
        return Ends::default();
    }
    let windows = Windows {
        earliest: &board.earliest,
        latest: &board.latest,
        lengths: &board.lengths,
    };
    let others = candidates(side, moved, marks.live, windows);
    detect_each(board, side, moved, others, marks.valid)
}
