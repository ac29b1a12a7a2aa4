// A bound that valid jobs leave to those behind them, kept while it holds.
#![tactic(auto)]

ghost use Rattle.std.specs.Prelude.{◌≡◌, ◌≢◌, ◌<◌};
ghost use Rattle.paper_board.specs.Paper.Limits.{job_limit};
ghost use Rattle.paper_board.specs.Paper.Values.{side_of};
ghost use Rattle.engine_sums.specs.Sums.{bound_of};
ghost use Rattle.engine_bound_beyond.specs.BoundBeyond.{Says};
ghost use Rattle.engine_leading.specs.Leading.{Leaves, LeadsTo, Lasts};

use engine_bound_beyond::{last, standing_apart};
use engine_energy::energy_bound;
use engine_neighbours::Neighbours;
use engine_order::Order;
use engine_ordered_bound::ordered_bound;
use engine_sums::bounds::Bounds;

// A set of valid jobs, and a time, as a bound on one side, that it leaves to the jobs behind it.
#[derive(Clone, Copy)]
pub struct Leading {
    pub set: u64,
    pub time: i32,
}

// The bound that a set of jobs, all beyond `job` on one side, leaves to it, where it is above its own. Where an order of them is known the sums
// go by it, unless all lie beyond a last one, whose bound has room for them already: then it alone decides.
fn bound_left(
    bounds: Bounds<'_>,
    job: usize,
    set: u64,
    neighbours: Neighbours<'_>,
    order: &Order,
) -> Option<i32>
    requires { (job < job_limit) × (set ≢ 0) }
    ensures { Says (side_of bounds.entry.side) bounds.entry.times.now bounds.entry.lengths.now neighbours.entry.beyond.now set job (bound_of (side_of bounds.entry.side) result) }
{
    let floor = bounds.times[job];
    let k = last(set, neighbours.opposite);
    if standing_apart(set, k, neighbours.beyond[k]) == 0 {
        return bounds.single(k, floor);
    }
    if order.count == 0 {
        return energy_bound(bounds, set, floor);
    }
    ordered_bound(bounds, set, floor, order.ranking())
}

// The valid jobs beyond a job, and a bound that they leave, where there is one. Many jobs in a row have the same ones beyond them: then the
// bound known serves again.
pub fn leading_to(
    bounds: Bounds<'_>,
    job: usize,
    known: Option<Leading>,
    neighbours: Neighbours<'_>,
    valid: u64,
    order: &Order,
) -> Option<Leading>
    requires { (job < job_limit) × Leaves (side_of bounds.side) bounds.times.now bounds.lengths.now known }
    ensures leads_to { LeadsTo result neighbours.entry.beyond.now valid job }
    ensures leaves { Leaves (side_of bounds.entry.side) bounds.entry.times.now bounds.entry.lengths.now result }
{
    let set = ground_sets::intersection(valid, neighbours.beyond[job]);
    if set == 0 {
        return None;
    }
    if known.is_some_and(|leading| leading.set == set) {
        return known;
    }
    let time = bound_left(bounds, job, set, neighbours, order)?;
    Some(Leading { set, time })
}

// What is known once a job may have moved: no bound of a set that has the job. On a board no job is in its own word, which the contract
// doesn't ask for.
pub fn lasting(leading: Option<Leading>, job: usize) -> Option<Leading>
    requires { job < job_limit }
    ensures { Lasts leading job result }
{
    leading.filter(|known| !ground_sets::has(known.set, job))
}
