// The ends of new arcs: what they give other rules to do. Nothing is promised of it: whatever is left out here, the search finds.
#![tactic(auto)]

ghost use Rattle.std.specs.Prelude.{◌<◌};
ghost use Rattle.paper_board.specs.Paper.Limits.{job_limit};

use engine_neighbours::{Arcs, Neighbours};
use engine_sides::Sides;
use ground_walks::Members;
use paper_board::facts::Side;
use std::ops::BitOr;

// The jobs at the ends of new arcs. `new` are those that got one beyond them: on the early side those with one before them, whose E may have to
// rise, on the late side those with one after them, whose D may have to fall. R1 may join others through those of `through`, and those of
// `crossed` may have arcs both ways (R2).
#[derive(Clone, Copy, Default)]
pub struct Ends {
    pub new: Sides<u64>,
    pub through: u64,
    pub crossed: u64,
}

impl BitOr for Ends {
    type Output = Ends;

    fn bitor(self, others: Ends) -> Ends {
        Ends {
            new: self.new | others.new,
            through: self.through | others.through,
            crossed: self.crossed | others.crossed,
        }
    }
}

// The others, and the job too where there are any at its other side.
fn beside(others: u64, job: usize, further: u64) -> u64
    requires { job < job_limit }
{
    if further == 0 {
        return others;
    }
    ground_sets::with(others, job)
}

// Those of `job` and `next`, which is beyond it by a new arc, through which R1 joins others: `next`, where there is a job beyond it that
// isn't beyond `job`; `job`, where there is one on its other side that isn't on that of `next`.
fn joining(job: usize, next: usize, neighbours: Neighbours<'_>) -> u64
    requires { (job < job_limit) × (next < job_limit) }
{
    let Neighbours { beyond, opposite } = neighbours;
    let mut found = 0;
    if ground_sets::difference(ground_sets::without(beyond[next], job), beyond[job]) != 0 {
        found = ground_sets::with(found, next);
    }
    if ground_sets::difference(ground_sets::without(opposite[job], next), opposite[next]) != 0 {
        found = ground_sets::with(found, job);
    }
    found
}

// The jobs through which R1 may join others where each of a set is beyond the job by a new arc.
fn joining_each(job: usize, set: u64, neighbours: Neighbours<'_>) -> u64
    requires { job < job_limit }
{
    let mut found = 0;
    for next in Members::of(set) {
        found = ground_sets::union(found, joining(job, next, neighbours));
    }
    found
}

// The ends of arcs from each of `into` to `job`, and from `job` to each of `onward`. R1 may join others through those of `through`, and
// those of `both` have arcs both ways to the job.
fn ends_at(job: usize, into: u64, onward: u64, through: u64, both: u64) -> Ends
    requires { job < job_limit }
{
    Ends {
        new: Sides {
            early: beside(onward, job, into),
            late: beside(into, job, onward),
        },
        through,
        crossed: beside(both, job, both),
    }
}

// The ends of the new arcs from `job` to each of `onward`, where R1 has set them: it has nothing more to do with them.
pub fn joined_at(job: usize, onward: u64, arcs: Arcs<'_>) -> Ends
    requires { job < job_limit }
{
    if onward == 0 {
        return Ends::default();
    }
    let both = ground_sets::intersection(arcs.before[job], arcs.after[job]);
    ends_at(job, 0, onward, 0, both)
}

// The ends of the new arcs from each of `into` to `job`, and from `job` to each of `onward`, where another rule has set them.
pub fn found_at(job: usize, into: u64, onward: u64, arcs: Arcs<'_>) -> Ends
    requires { job < job_limit }
{
    if ground_sets::union(into, onward) == 0 {
        return Ends::default();
    }
    let first = joining_each(job, into, arcs.on(Side::Early));
    let second = joining_each(job, onward, arcs.on(Side::Late));
    let both = ground_sets::intersection(arcs.before[job], arcs.after[job]);
    ends_at(job, into, onward, ground_sets::union(first, second), both)
}
