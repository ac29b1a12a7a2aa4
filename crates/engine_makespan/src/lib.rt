// Jobs put one after the other, each as early as its own bound and the job before it allow. Whatever their order, no sum of theirs is above
// their end: so the order need not be right.
#![tactic(auto)]

ghost use Rattle.std.specs.Prelude.{◌≡◌, ℕ, ◌<◌};
ghost use Rattle.std.proofs.Math.Option.{none};
ghost use Rattle.paper_board.specs.Paper.Limits.{job_limit};
ghost use Rattle.paper_board.specs.Paper.Values.{side_of};
ghost use Rattle.engine_sums.specs.Sums.{Sum, Exceeds};
ghost use Rattle.engine_makespan.specs.Makespan.{EndInRange, Sequenced};

use engine_order::Ranking;
use engine_sums::bounds::Bounds;
use paper_board::Board;

// The jobs of a set that are still to come, where the last block of jobs without idle time between them begins, and where it ends. Of the beginning
// nothing is promised: who uses it tests what it gives.
#[derive(Clone, Copy)]
pub struct Sequence {
    pub left: u64,
    pub start: i32,
    pub end: i32,
}

// Job k put behind the others, where it is still to come. The end is made before that is asked, so that no branch has to be foreseen.
fn append(bounds: Bounds<'_>, k: usize, earlier: Sequence) -> Sequence
    requires { (k < job_limit) × EndInRange bounds.lengths.now earlier.left earlier.end }
    ensures end_in_range { EndInRange bounds.entry.lengths.now result.left result.end }
    ensures by_index { (set : ℕ) → Sequenced (side_of bounds.entry.side) bounds.entry.times.now bounds.entry.lengths.now set earlier.left earlier.end → Sequenced (side_of bounds.entry.side) bounds.entry.times.now bounds.entry.lengths.now set result.left result.end }
{
    let low = bounds.at(k);
    let after = ground_arithmetic::greater(earlier.end, low);
    let end = ground_arithmetic::sum(after, bounds.lengths[k]);
    if !ground_sets::has(earlier.left, k) {
        return earlier;
    }
    let start = if earlier.end < low {
        low
    } else {
        earlier.start
    };
    Sequence {
        left: ground_sets::without(earlier.left, k),
        start,
        end,
    }
}

// Eight jobs more, whose numbers are the bytes of a word. These are shifted out, not made an array, so that the word stays in a register.
fn append_eight(bounds: Bounds<'_>, jobs: u64, earlier: Sequence) -> Sequence
    requires { EndInRange bounds.lengths.now earlier.left earlier.end }
    ensures end_in_range { EndInRange bounds.entry.lengths.now result.left result.end }
    ensures by_index { (set : ℕ) → Sequenced (side_of bounds.entry.side) bounds.entry.times.now bounds.entry.lengths.now set earlier.left earlier.end → Sequenced (side_of bounds.entry.side) bounds.entry.times.now bounds.entry.lengths.now set result.left result.end }
{
    let mut sequence = earlier;
    let mut next = jobs;
    for _ in 0..Ranking::BYTES {
        let k = (next % 64) as usize;
        next = next >> 8;
        sequence = append(bounds, k, sequence);
    }
    sequence
}

// The jobs of a set in an order, as far as it has them: where none are left, no sum of theirs is above the end. The eights are counted, since of a
// range by steps the check doesn't know that it ends.
pub fn in_order(bounds: Bounds<'_>, set: u64, order: Ranking) -> Sequence
    ensures end_in_range { EndInRange bounds.entry.lengths.now result.left result.end }
    ensures exceeds { result.left ≡ 0 → Exceeds (Sum (side_of bounds.entry.side) bounds.entry.times.now bounds.entry.lengths.now set) result.end none }
{
    let mut sequence = Sequence {
        left: set,
        start: Board::FIRST_MINUTE,
        end: Board::FIRST_MINUTE,
    };
    for n in 0..Board::JOBS / Ranking::BYTES {
        let rank = n * Ranking::BYTES;
        if sequence.left == 0 || order.count <= rank {
            break;
        }
        let jobs = order.eight_from(rank);
        sequence = append_eight(bounds, jobs, sequence);
    }
    sequence
}
