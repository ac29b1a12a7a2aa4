// Transitivity: what R1 infers through each valid job in turn, from all jobs before it to all after it, as in Warshall's
// algorithm. It is sound and need not be complete: what it leaves out the search finds.
#![tactic(auto)]

ghost use Rattle.std.specs.Prelude.{◌<◌, get_or};
ghost use Rattle.paper_board.specs.Paper.Limits.{job_limit};
ghost use Rattle.paper_board.specs.BoardTests.Sets.{Subset};
ghost use Rattle.engine_arcs.specs.Arcs.{ArcsAlone, Sound};
ghost use Rattle.engine_transitivity.specs.Transitivity.{AllValid, Through, Forth};

use engine_arcs::link;
use engine_ends::{Ends, joined_at};
use engine_neighbours::Arcs;
use ground_walks::Members;
use paper_board::Board;

// The arcs from `from` to the live jobs after `through`. Gives the jobs to which they are new.
fn join(board: &mut Board, from: usize, through: usize, live: u64) -> u64
    requires { (from < job_limit) × (through < job_limit) }
    ensures kept { ArcsAlone board.old board.new }
    ensures sound { Sound (Forth from through) board.old.before board.old.after board.new.before board.new.after }
{
    let onward = ground_sets::without(board.after[through], from);
    let all = ground_sets::difference(onward, board.after[from]);
    let missing = ground_sets::intersection(all, live);
    for to in Members::of(missing) {
        link(&mut board.before, &mut board.after, from, to);
    }
    missing
}

// The arcs from each of `sources`, jobs before `through`, to each live one after it. Gives the ends of those that are new.
fn join_through(board: &mut Board, sources: u64, through: usize, live: u64) -> Ends
    requires { (through < job_limit) × Subset sources (get_or board.old.before through 0) }
    ensures kept { ArcsAlone board.old board.new }
    ensures sound { Sound (Through through) board.old.before board.old.after board.new.before board.new.after }
{
    let mut found = Ends::default();
    for from in Members::of(sources) {
        let new = join(board, from, through, live);
        let arcs = Arcs {
            before: &board.before,
            after: &board.after,
        };
        found = found | joined_at(from, new, arcs);
    }
    found
}

// The arcs through each of some valid jobs, between live ones. Gives the ends of those that are new.
pub fn join_arcs(board: &mut Board, middles: u64, live: u64) -> Ends
    ensures kept { ArcsAlone board.old board.new }
    ensures sound { Sound (AllValid middles) board.old.before board.old.after board.new.before board.new.after }
{
    let mut found = Ends::default();
    for through in Members::of(middles) {
        let sources = ground_sets::intersection(board.before[through], live);
        let new = join_through(board, sources, through, live);
        found = found | new;
    }
    found
}
