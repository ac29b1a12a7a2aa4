// Exclusion: the jobs that can't stay by R2, since they have arcs both ways to a valid job, or by R6, since they don't fit their windows.
// It is sound and need not be complete: what it leaves out the search finds.
#![tactic(auto)]

ghost use Rattle.engine_exclusion.specs.Gone.{Crossed, Unfit};

use engine_neighbours::Arcs;
use engine_sums::bounds::Windows;
use engine_windows::Window;
use ground_walks::Members;

// R2: the jobs with arcs both ways to a job of the set.
pub fn excluded(set: u64, arcs: Arcs<'_>) -> u64
    ensures { Crossed arcs.entry.before.now arcs.entry.after.now set result }
{
    let mut found = 0;
    for k in Members::of(set) {
        found = ground_sets::union(
            found,
            ground_sets::intersection(arcs.before[k], arcs.after[k]),
        );
    }
    found
}

// R6: the jobs of the set that don't fit their windows.
pub fn unfit(set: u64, windows: Windows<'_>) -> u64
    ensures { Unfit windows.entry.earliest.now windows.entry.latest.now windows.entry.lengths.now set result }
{
    let mut found = 0;
    for k in Members::of(set) {
        let window = Window {
            earliest: windows.earliest[k],
            latest: windows.latest[k],
        };
        if !window.holds(windows.lengths[k]) {
            found = ground_sets::with(found, k);
        }
    }
    found
}
