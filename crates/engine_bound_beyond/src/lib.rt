// The bound that the valid jobs beyond a job leave to it.
#![tactic(auto)]

ghost use Rattle.std.specs.Prelude.{◌≡◌, true, ◌≢◌, ◌<◌};
ghost use Rattle.ground_sets.specs.Bit.{bit};
ghost use Rattle.paper_board.specs.Paper.Limits.{job_limit};
ghost use Rattle.paper_board.specs.Paper.Values.{side_of};
ghost use Rattle.engine_sums.specs.Sums.{bound_of};
ghost use Rattle.engine_bound_beyond.specs.BoundBeyond.{ApartSet, Says, BoundBeyond};

use engine_energy::{ends_by, energy_bound};
use engine_neighbours::Neighbours;
use engine_sums::bounds::Bounds;
use paper_board::Board;

// A last job of the set: one with none of the others on its opposite side. Where each has one, as on a cycle, any job will do.
pub fn last(set: u64, opposite: &[u64; Board::JOBS]) -> usize
    requires { set ≢ 0 }
    ensures { (result < job_limit) × (bit set result ≡ true) }
{
    let mut k = ground_walks::lowest(set);
    for _ in 0..Board::JOBS {
        let further = ground_sets::intersection(opposite[k], set);
        if further == 0 {
            return k;
        }
        k = ground_walks::lowest(further);
    }
    k
}

// The jobs of the set but k that are not in k's word.
pub fn standing_apart(set: u64, k: usize, word: u64) -> u64
    requires { k < job_limit }
    ensures { ApartSet set k word result }
{
    ground_sets::difference(ground_sets::without(set, k), word)
}

// The bound that a set of jobs, all beyond `job` on one side, leaves to it, where it is above its own. Most of them lie beyond a last
// one, whose bound has room for them already: where none stands apart it alone decides, and where some do they seldom push a job on a board
// where nothing is left to move, so that is asked first. Propagation, whose jobs mostly do move, goes another way (`engine_leading`).
fn bound_of(bounds: Bounds<'_>, job: usize, set: u64, neighbours: Neighbours<'_>) -> Option<i32>
    requires { (job < job_limit) × (set ≢ 0) }
    ensures { Says (side_of bounds.entry.side) bounds.entry.times.now bounds.entry.lengths.now neighbours.entry.beyond.now set job (bound_of (side_of bounds.entry.side) result) }
{
    let floor = bounds.times[job];
    let k = last(set, neighbours.opposite);
    let apart = standing_apart(set, k, neighbours.beyond[k]);
    if apart == 0 {
        return bounds.single(k, floor);
    }
    if apart != ground_sets::without(set, k) && ends_by(bounds, k, apart, floor) {
        return None;
    }
    energy_bound(bounds, set, floor)
}

// R4 and R5: the bound that the valid jobs beyond a job on one side leave to it, where it is above its own. The neighbours are those on
// the side of the bounds. Kept out of its caller, who asks it of few jobs and passes over all others at once.
#[inline(never)]
pub fn bound_beyond(
    bounds: Bounds<'_>,
    job: usize,
    neighbours: Neighbours<'_>,
    valid: u64,
) -> Option<i32>
    requires { job < job_limit }
    ensures { BoundBeyond (side_of bounds.entry.side) bounds.entry.times.now bounds.entry.lengths.now neighbours.entry.beyond.now valid job (bound_of (side_of bounds.entry.side) result) }
{
    let set = ground_sets::intersection(valid, neighbours.beyond[job]);
    if set == 0 {
        return None;
    }
    bound_of(bounds, job, set, neighbours)
}
