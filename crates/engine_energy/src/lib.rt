// The energy bound of R4 and R5: the best sum that a set of jobs allows, without a copy of the jobs.
#![tactic(auto)]

ghost use Rattle.std.specs.Prelude.{◌≡◌, true, ◌<◌};
ghost use Rattle.ground_arithmetic.specs.Time.{Moderate};
ghost use Rattle.paper_board.specs.Paper.Limits.{job_limit};
ghost use Rattle.paper_board.specs.Paper.Values as paper;
ghost use Rattle.engine_sums.specs.Sums as sums;

use engine_sums::bounds::Bounds;
use engine_sums::{above, turned};
use ground_walks::Members;
use paper_board::Board;

// The jobs still in play, the least of their bounds, and the sum of their lengths.
#[derive(Clone, Copy)]
pub struct Play {
    pub set: u64,
    pub least: i32,
    pub total: i32,
}

// All jobs of a set. Where there are none, `least` says nothing.
pub fn whole(bounds: Bounds<'_>, set: u64) -> Play
    ensures set_value { result.set ≡ set }
    ensures comes { sums.Comes (paper.side_of bounds.entry.side) bounds.entry.times.now bounds.entry.lengths.now set result.least result.total }
{
    let mut least = Board::LAST_MINUTE;
    let mut total = 0;
    for k in Members::of(set) {
        least = ground_arithmetic::lesser(least, bounds.at(k));
        total = ground_arithmetic::sum(total, bounds.lengths[k]);
    }
    Play { set, least, total }
}

// One pass over the jobs in play, upward or downward: a job is struck where its bound, with the lengths of all that are still in play,
// can't beat the best. The direction is free: no contract speaks of it.
fn strike(bounds: Bounds<'_>, set: u64, load: i32, best: i32, downward: bool) -> Play
    requires load_value { load ≡ sums.load bounds.lengths.now set }
    ensures strikes { sums.Strikes (paper.side_of bounds.entry.side) bounds.entry.times.now bounds.entry.lengths.now best set result.set }
    ensures beats { sums.Beats (paper.side_of bounds.entry.side) bounds.entry.times.now bounds.entry.lengths.now best set result.set }
    ensures comes { sums.Comes (paper.side_of bounds.entry.side) bounds.entry.times.now bounds.entry.lengths.now result.set result.least result.total }
{
    let mut kept = set;
    let mut least = Board::LAST_MINUTE;
    let mut total = load;
    for k in Members::along(set, downward) {
        let low = bounds.at(k);
        if ground_arithmetic::sum(low, total) <= best {
            kept = ground_sets::without(kept, k);
            total = ground_arithmetic::gap(total, bounds.lengths[k]);
        } else {
            least = ground_arithmetic::lesser(least, low);
        }
    }
    Play {
        set: kept,
        least,
        total,
    }
}

// The greatest sum of a set of jobs, where it is above the floor, a time. Over the jobs still in play take their least bound and all
// their lengths, keep the greatest such sum, strike jobs whose bound can't beat it any more, and repeat. The floor is the first to
// be beaten. A pass strikes many where the bounds rise along it, so the passes go up and down in turn.
pub fn energy_bound(bounds: Bounds<'_>, set: u64, floor: i32) -> Option<i32>
    requires { Moderate floor }
    ensures { sums.Exceeds (sums.Sum (paper.side_of bounds.entry.side) bounds.entry.times.now bounds.entry.lengths.now set) (paper.turned (paper.side_of bounds.entry.side) floor) (sums.bound_of (paper.side_of bounds.entry.side) result) }
{
    let low = turned(bounds.side, floor);
    let mut best = low;
    let mut play = whole(bounds, set);
    let mut downward = false;
    while play.set != 0 {
        best = ground_arithmetic::greater(best, ground_arithmetic::sum(play.least, play.total));
        play = strike(bounds, play.set, play.total, best, downward);
        downward = !downward;
    }
    above(bounds.side, low, best)
}

// Does the job at place k end by the floor with the lengths of all of a set added, and is no sum of the set above the floor?
pub fn ends_by(bounds: Bounds<'_>, k: usize, set: u64, floor: i32) -> bool
    requires { (k < job_limit) × Moderate floor }
    ensures { result ≡ true → sums.EndsBy (paper.side_of bounds.entry.side) bounds.entry.times.now bounds.entry.lengths.now k set (paper.turned (paper.side_of bounds.entry.side) floor) }
{
    let all = whole(bounds, set);
    let together = ground_arithmetic::sum(bounds.end(k), all.total);
    if turned(bounds.side, floor) < together {
        return false;
    }
    energy_bound(bounds, set, floor).is_none()
}
