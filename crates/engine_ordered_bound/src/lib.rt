// The energy bound by an order of the jobs, where one is known.
#![tactic(auto)]

ghost use Rattle.std.specs.Prelude.{◌≡◌, true};
ghost use Rattle.std.proofs.Math.Option.{none};
ghost use Rattle.ground_arithmetic.specs.Time.{Moderate};
ghost use Rattle.paper_board.specs.Paper.Values as paper;
ghost use Rattle.paper_board.specs.BoardTests.Sets.{Subset};
ghost use Rattle.engine_sums.specs.Sums as sums;

use engine_energy::{energy_bound, whole};
use engine_makespan::in_order;
use engine_order::Ranking;
use engine_sums::bounds::Bounds;
use engine_sums::{above, bound, turned};
use ground_walks::Members;
use paper_board::Board;
use paper_board::facts::Side;

// Jobs of a set: those with a bound of `start` or more.
fn bounded_from(side: Side, times: &[i32; Board::JOBS], set: u64, start: i32) -> u64
    requires { sums.Times times.now }
    ensures { Subset result set }
{
    let mut found = 0;
    for k in Members::of(set) {
        if start <= bound(side, times, k) {
            found = ground_sets::with(found, k);
        }
    }
    found
}

// Does an end that no sum of a set is above decide what their greatest sum above `low` is? It does where it is no higher than `low`, and where
// the jobs with bounds from `start` on, where its last block begins if the order was right, come to it. A `false` too many costs time and no
// answer.
fn decides(bounds: Bounds<'_>, set: u64, low: i32, start: i32, end: i32) -> bool
    requires { sums.Exceeds (sums.Sum (paper.side_of bounds.side) bounds.times.now bounds.lengths.now set) end none }
    ensures { result ≡ true → sums.Exceeds (sums.Sum (paper.side_of bounds.entry.side) bounds.entry.times.now bounds.entry.lengths.now set) low (sums.over low end) }
{
    if end <= low {
        return true;
    }
    let block = bounded_from(bounds.side, bounds.times, set, start);
    if block == 0 {
        return false;
    }
    let all = whole(bounds, block);
    ground_arithmetic::sum(all.least, all.total) == end
}

// The greatest sum of a set of jobs, where it is above the floor, a time: by an order of the jobs, where one is known and decides it.
pub fn ordered_bound(bounds: Bounds<'_>, set: u64, floor: i32, order: Ranking) -> Option<i32>
    requires { Moderate floor }
    ensures { sums.Exceeds (sums.Sum (paper.side_of bounds.entry.side) bounds.entry.times.now bounds.entry.lengths.now set) (paper.turned (paper.side_of bounds.entry.side) floor) (sums.bound_of (paper.side_of bounds.entry.side) result) }
{
    let low = turned(bounds.side, floor);
    let sequence = in_order(bounds, set, order);
    if sequence.left == 0 && decides(bounds, set, low, sequence.start, sequence.end) {
        return above(bounds.side, low, sequence.end);
    }
    energy_bound(bounds, set, floor)
}
