// "for every ordered pair of two live jobs": the first inference that the board doesn't show yet, if any.
#![tactic(auto)]

ghost use Rattle.std.specs.Prelude.{◌<◌};
ghost use Rattle.paper_rules.specs.Inference.Infers.{Obeys};
ghost use Rattle.engine_sums.specs.Sums.{Times, Lengths};
ghost use Rattle.engine_findings.specs.InferredOf.{inferred_of};
ghost use Rattle.engine_partners.specs.PairSettled.{PairsSettled};
ghost use Rattle.engine_search.specs.PairsWalk.{ReadSearched, PairFound, JobsSettled};

use engine_dominance::representative;
use engine_job_rules::at_job;
use engine_marks::Marks;
use engine_neighbours::Arcs;
use engine_pair_rules::Pair;
use engine_partners::{ends_late, latest_start, partners};
use engine_sums::bounds::Windows;
use ground_walks::Members;
use paper_board::Board;
use paper_board::facts::{Fact, Side};

// A pair at which R1, R2 or R3 applies, looked for row by row.
fn find_pair(windows: Windows<'_>, arcs: Arcs<'_>, sets: Marks) -> Option<Pair>
    ensures { PairFound sets.live sets.valid windows.entry.earliest.now windows.entry.latest.now windows.entry.lengths.now arcs.entry.before.now arcs.entry.after.now result }
{
    let starts = windows.on(Side::Early);
    let ends = windows.on(Side::Late);
    let least = latest_start(sets.live, ends);
    let mut found = None;
    'pairs: for i in Members::of(sets.live) {
        let end = starts.end(i);
        let before = arcs.before[i];
        let after = arcs.after[i];
        let others = partners(i, sets, before, after, end, least, ends, arcs.after);
        for k in Members::of(others) {
            let pair = Pair {
                first: i,
                second: k,
                valid: sets.valid,
                after,
                before,
                onward: arcs.after[k],
                late: ends_late(k, end, ends),
            };
            if pair.applies() {
                found = Some(pair);
                break 'pairs;
            }
        }
    }
    found
}

// What R1, R2 or R3 infers at a pair at which one applies, where there is one.
fn at_pairs(windows: Windows<'_>, arcs: Arcs<'_>, sets: Marks) -> Option<Fact>
    ensures { ReadSearched PairsSettled sets.live sets.valid windows.entry.earliest.now windows.entry.latest.now windows.entry.lengths.now arcs.entry.before.now arcs.entry.after.now (inferred_of result) }
{
    find_pair(windows, arcs, sets)?.inferred()
}

// What R4, R5 and R6 infer, job by job. The jobs whose sums were taken last, one for each side, serve for those that they dominate: on
// a board in layers many jobs have the same sums.
fn at_jobs(windows: Windows<'_>, arcs: Arcs<'_>, sets: Marks) -> Option<Fact>
    ensures { ReadSearched JobsSettled sets.live sets.valid windows.entry.earliest.now windows.entry.latest.now windows.entry.lengths.now arcs.entry.before.now arcs.entry.after.now (inferred_of result) }
{
    let valid = sets.valid;
    let mut done = 0;
    let mut early = 0;
    let mut late = 0;
    for job in Members::of(sets.live) {
        early = representative(
            Side::Early,
            job,
            early,
            done,
            windows.earliest,
            arcs.before,
            valid,
        );
        late = representative(
            Side::Late,
            job,
            late,
            done,
            windows.latest,
            arcs.after,
            valid,
        );
        let found = at_job(job, early, late, windows, arcs, valid);
        if found.is_some() {
            return found;
        }
        done = ground_sets::with(done, job);
    }
    None
}

// The pairs come first: the sums of R4 and R5 cost the most, so they wait until no arc is left to infer.
pub fn find(board: &Board, sets: Marks) -> Option<Fact>
    requires { Times board.now.earliest × Times board.now.latest × Lengths board.now.lengths }
    ensures { ReadSearched Obeys sets.live sets.valid board.now.earliest board.now.latest board.now.lengths board.now.before board.now.after (inferred_of result) }
{
    let windows = Windows {
        earliest: &board.earliest,
        latest: &board.latest,
        lengths: &board.lengths,
    };
    let arcs = Arcs {
        before: &board.before,
        after: &board.after,
    };
    let found = at_pairs(windows, arcs, sets);
    if found.is_some() {
        return found;
    }
    at_jobs(windows, arcs, sets)
}
