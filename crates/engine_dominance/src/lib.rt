// Dominance: the job whose sums on one side serve for those of another.
#![tactic(auto)]

ghost use Rattle.std.specs.Prelude.{◌≡◌, true, ◌<◌};
ghost use Rattle.paper_board.specs.Paper.Limits.{job_limit};
ghost use Rattle.paper_board.specs.Paper.Values.{side_of};
ghost use Rattle.engine_sums.specs.Sums.{Times};
ghost use Rattle.engine_dominance.specs.Dominance.{Dominated, Represents};

use engine_sums::is_lower;
use paper_board::Board;
use paper_board::facts::Side;

// Dominance between two jobs on one side: do the jobs of the set, those beyond the first, lie in the word of those beyond the second, and
// is the first one's time no lower? Then a sum above its bound is one of the second's, and above that bound too.
fn is_dominated(side: Side, set: u64, word: u64, time: i32, other: i32) -> bool
    ensures { result ≡ true → Dominated (side_of side) set word time other }
{
    if ground_sets::difference(set, word) != 0 {
        return false;
    }
    !is_lower(side, time, other)
}

// The job whose sums on one side serve for those of `job`: `former`, where it is done and dominates it, or else `job` itself. Where
// no valid jobs lie beyond `job` there are no sums, and `former` is kept for the jobs to come. The times come alone: no length is read here,
// and so none is asked for.
pub fn representative<'a>(
    side: Side,
    job: usize,
    former: usize,
    done: u64,
    times: &'a [i32; Board::JOBS],
    beyond: &'a [u64; Board::JOBS],
    valid: u64,
) -> usize
    requires { (job < job_limit) × (former < job_limit) × Times times.now }
    ensures { Represents (side_of side) times.now beyond.now valid done job result }
{
    let set = ground_sets::intersection(valid, beyond[job]);
    if set == 0 {
        return former;
    }
    if !ground_sets::has(done, former) {
        return job;
    }
    if is_dominated(side, set, beyond[former], times[job], times[former]) {
        return former;
    }
    job
}
