// Precedence propagation: the windows of some jobs, each bounded by the valid jobs on one side of it. It is sound and need not be complete:
// what it leaves out the search finds.
#![tactic(auto)]

ghost use Rattle.std.specs.Prelude.{◌≡◌, List, ℕ, ◌<◌};
ghost use Rattle.ground_sets.specs.Bit.{union};
ghost use Rattle.ground_arithmetic.specs.Time.{Moderate};
ghost use Rattle.paper_board.specs.Paper.Limits.{job_limit};
ghost use Rattle.paper_board.specs.Paper.Values.{side_of};
ghost use Rattle.engine_sums.specs.Sums.{Times, Lengths};
ghost use Rattle.engine_leading.specs.Leading.{Leaves, LeadsTo, SameBut};
ghost use Rattle.engine_precedence.specs.Precedence as windows;

use engine_leading::{Leading, lasting, leading_to};
use engine_neighbours::Neighbours;
use engine_order::Order;
use engine_reordering::reorder;
use engine_sorting::asked;
use engine_sums::bounds::Bounds;
use engine_sums::is_lower;
use engine_windows::Window;
use ground_walks::Members;
use paper_board::Board;
use paper_board::facts::Side;
use std::ops::BitOr;

// R6: does a job of that length fit between its new time on one side and the other end of its window?
fn holds(side: Side, time: i32, fixed: i32, length: i32) -> bool
    requires { Moderate time × Moderate fixed × Moderate length }
    ensures { result ≡ windows.room (side_of side) time fixed length }
{
    match side {
        Side::Early => {
            let window = Window {
                earliest: time,
                latest: fixed,
            };
            window.holds(length)
        }
        Side::Late => {
            let window = Window {
                earliest: fixed,
                latest: time,
            };
            window.holds(length)
        }
    }
}

// The jobs that moved, those that can't move as far as they have to, since they no longer fit their windows, and those that may have to
// move in their turn.
#[derive(Clone, Copy, Default)]
pub struct Pushed {
    pub moved: u64,
    pub stuck: u64,
    pub next: u64,
}

impl BitOr for Pushed {
    type Output = Pushed;

    ghost bitor_gives = { λ some others all. all.stuck ≡ union some.stuck others.stuck };

    fn bitor(self, others: Pushed) -> Pushed {
        Pushed {
            moved: ground_sets::union(self.moved, others.moved),
            stuck: ground_sets::union(self.stuck, others.stuck),
            next: ground_sets::union(self.next, others.next),
        }
    }
}

// A job that moved. A valid one moves what is on its other side.
fn moved(job: usize, valid: u64, opposite: u64) -> Pushed
    requires { job < job_limit }
    ensures { result.stuck ≡ 0 }
{
    let next = if ground_sets::has(valid, job) {
        opposite
    } else {
        0
    };
    Pushed {
        moved: ground_sets::with(0, job),
        next,
        ..Pushed::default()
    }
}

// A job's bound on one side put to what the valid jobs beyond it leave to it, where that is above its own and the job still fits.
fn push_job(
    side: Side,
    job: usize,
    leading: Option<Leading>,
    times: &mut [i32; Board::JOBS],
    fixed: &[i32; Board::JOBS],
    lengths: &[i32; Board::JOBS],
    opposite: &[u64; Board::JOBS],
    valid: u64,
) -> Pushed
    requires { (job < job_limit) × Times times.old × Times fixed.now × Lengths lengths.now × Leaves (side_of side) times.old lengths.now leading }
    ensures times { Times times.new × SameBut job times.old times.new }
    ensures raises { (beyond : List ℕ) → LeadsTo leading beyond valid job → windows.Raises (side_of side) (windows.PrecedenceRead (side_of side) fixed.now lengths.now beyond valid) times.old times.new }
    ensures shuts { (beyond : List ℕ) → LeadsTo leading beyond valid job → windows.Shuts (side_of side) (windows.PrecedenceRead (side_of side) fixed.now lengths.now beyond valid) times.old result.stuck }
{
    let Some(Leading { time, .. }) = leading else {
        return Pushed::default();
    };
    if !is_lower(side, times[job], time) {
        return Pushed::default();
    }
    if holds(side, time, fixed[job], lengths[job]) {
        times[job] = time;
        return moved(job, valid, opposite[job]);
    }
    Pushed {
        stuck: ground_sets::with(0, job),
        ..Pushed::default()
    }
}

// Each job of a set moved on one side. It ends where a valid job is stuck: then there is no board.
pub fn push(
    side: Side,
    set: u64,
    times: &mut [i32; Board::JOBS],
    fixed: &[i32; Board::JOBS],
    lengths: &[i32; Board::JOBS],
    neighbours: Neighbours<'_>,
    valid: u64,
    order: &mut Order,
) -> Pushed
    requires { Times times.old × Times fixed.now × Lengths lengths.now }
    ensures times { Times times.new }
    ensures raises { windows.Raises (side_of side) (windows.PrecedenceRead (side_of side) fixed.now lengths.now neighbours.entry.beyond.now valid) times.old times.new }
    ensures shuts { windows.Shuts (side_of side) (windows.PrecedenceRead (side_of side) fixed.now lengths.now neighbours.entry.beyond.now valid) times.old result.stuck }
{
    asked(order, side, set, valid, times);
    let mut all = Pushed::default();
    let mut known = None;
    for job in Members::of(set) {
        let bounds = Bounds {
            side,
            times: &*times,
            lengths,
        };
        let leading = leading_to(bounds, job, known, neighbours, valid, order);
        let step = push_job(
            side,
            job,
            leading,
            times,
            fixed,
            lengths,
            neighbours.opposite,
            valid,
        );
        known = lasting(leading, job);
        if step.moved != 0 {
            reorder(order, side, job, times);
        }
        all = all | step;
        if ground_sets::intersection(all.stuck, valid) != 0 {
            break;
        }
    }
    all
}
