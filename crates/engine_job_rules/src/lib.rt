// The search at one job: what R4, R5 and R6 infer of its window.
#![tactic(auto)]

ghost use Rattle.std.specs.Prelude.{◌<◌};
ghost use Rattle.paper_board.specs.Paper.Limits.{job_limit};
ghost use Rattle.paper_board.specs.Paper.Values.{side_of};
ghost use Rattle.engine_findings.specs.InferredOf.{inferred_of};
ghost use Rattle.engine_job_rules.specs.JobSearched.{SideSearched, JobSearched};

use engine_bound_beyond::bound_beyond;
use engine_neighbours::{Arcs, Neighbours};
use engine_sums::bounds::{Bounds, Windows};
use engine_windows::Window;
use paper_board::facts::{Fact, Side};

// What the valid jobs on one side of a job infer of its window. Where another job represents it there, nothing is left to infer: made a part of
// its caller, it costs no call then.
#[inline(always)]
fn at_side(
    bounds: Bounds<'_>,
    job: usize,
    representative: usize,
    neighbours: Neighbours<'_>,
    valid: u64,
) -> Option<Fact>
    requires { job < job_limit }
    ensures { SideSearched (side_of bounds.entry.side) job representative bounds.entry.times.now bounds.entry.lengths.now neighbours.entry.beyond.now valid (inferred_of result) }
{
    if representative != job {
        return None;
    }
    let time = bound_beyond(bounds, job, neighbours, valid)?;
    Some(Fact::Bound {
        side: bounds.side,
        job,
        time,
    })
}

// What R6, R4 and R5 infer of job i, with its representatives on either side.
pub fn at_job(
    i: usize,
    early: usize,
    late: usize,
    windows: Windows<'_>,
    arcs: Arcs<'_>,
    valid: u64,
) -> Option<Fact>
    requires { i < job_limit }
    ensures { JobSearched i early late windows.entry.earliest.now windows.entry.latest.now windows.entry.lengths.now arcs.entry.before.now arcs.entry.after.now valid (inferred_of result) }
{
    let window = Window {
        earliest: windows.earliest[i],
        latest: windows.latest[i],
    };
    if !window.holds(windows.lengths[i]) {
        return Some(Fact::Invalid { job: i });
    }
    let raised = at_side(
        windows.on(Side::Early),
        i,
        early,
        arcs.on(Side::Early),
        valid,
    );
    // Not by a closure after it: nothing would be told of what one with these calls gives.
    if raised.is_some() {
        return raised;
    }
    at_side(windows.on(Side::Late), i, late, arcs.on(Side::Late), valid)
}
