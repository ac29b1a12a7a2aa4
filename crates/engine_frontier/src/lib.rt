// The jobs to move next, in topological order.
#![tactic(auto)]

use engine_bound_beyond::last;
use engine_neighbours::Neighbours;
use ground_walks::Members;
use paper_board::Board;

// The jobs of a set with no job of `pushing` beyond them.
fn unpushed(set: u64, pushing: u64, beyond: &[u64; Board::JOBS]) -> u64 {
    let mut found = 0;
    for k in Members::of(set) {
        if ground_sets::intersection(beyond[k], pushing) == 0 {
            found = ground_sets::with(found, k);
        }
    }
    found
}

// The jobs to move next, in topological order: those that are due with no valid one that is due beyond them. `last`, asked from the other
// side, gives a first one, and what lies behind it has to wait. Nothing is promised of it: any set is sound to move.
pub fn frontier(due: u64, valid: u64, neighbours: Neighbours<'_>) -> u64 {
    let pushing = ground_sets::intersection(due, valid);
    if pushing == 0 {
        return due;
    }
    let first = last(pushing, neighbours.beyond);
    let beside = ground_sets::difference(
        ground_sets::without(due, first),
        neighbours.opposite[first],
    );
    ground_sets::with(unpushed(beside, pushing, neighbours.beyond), first)
}
