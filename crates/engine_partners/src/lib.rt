// The jobs to pair with a job: those at which R1, R2 or R3 may infer something that the other pairs and the jobs don't tell.
#![tactic(auto)]

ghost use Rattle.std.specs.Prelude.{◌≡◌, ◌&&◌, ℕ, ◌<◌, pos, ◌+ℤ◌, get_or};
ghost use Rattle.std.specs.Int.Signed.{lt_z};
ghost use Rattle.ground_sets.specs.Bit.{bit};
ghost use Rattle.ground_arithmetic.specs.Time.{Moderate};
ghost use Rattle.paper_board.specs.Paper.Limits.{job_limit};
ghost use Rattle.engine_partners.specs.Partners.{AllInTime, LateLeft, KeptApart, OrderLeft, Reaches, JoinLeft};
ghost use Rattle.engine_partners.specs.RowRead.{RowLeft};

use engine_marks::Marks;
use engine_pair_rules::is_late;
use engine_sums::bounds::Bounds;
use ground_walks::Members;
use paper_board::Board;

// The least of the latest starts of a set, whose latest ends are those of the bounds: no job of it ends too late after one that ends by then.
pub fn latest_start(set: u64, ends: Bounds<'_>) -> i32
    ensures { AllInTime ends.entry.times.now ends.entry.lengths.now set result }
{
    let mut least = Board::LAST_MINUTE;
    for k in Members::of(set) {
        least = ground_arithmetic::lesser(
            least,
            ground_arithmetic::gap(ends.times[k], ends.lengths[k]),
        );
    }
    least
}

// R3: does k, started at `end`, end too late?
pub fn ends_late(k: usize, end: i32, ends: Bounds<'_>) -> bool
    requires { (k < job_limit) × Moderate end }
    ensures { result ≡ lt_z (get_or ends.entry.times.now k (pos 0)) (end +ℤ get_or ends.entry.lengths.now k (pos 0)) }
{
    is_late(end, ends.lengths[k], ends.times[k])
}

// R3: the jobs of the set from the first on that would end too late after a job that ends at `end`.
fn late(set: u64, end: i32, ends: Bounds<'_>) -> u64
    requires { Moderate end }
    ensures { LateLeft ends.entry.times.now ends.entry.lengths.now set end result }
{
    let mut jobs = Members::of(set);
    while let Some(k) = jobs.next() {
        if ends_late(k, end, ends) {
            return ground_sets::with(jobs.left, k);
        }
    }
    0
}

// Of the jobs `beside`, which have an arc to or from i, those that R4 to R6 keep apart from it, since i or they are valid.
pub fn kept_apart(i: usize, valid: u64, beside: u64) -> u64
    requires { i < job_limit }
    ensures { KeptApart i valid beside result }
{
    if ground_sets::has(valid, i) {
        return beside;
    }
    ground_sets::intersection(beside, valid)
}

// R3: the jobs to test, which may have no arc to i though they would end too late after it.
fn ordered(
    i: usize,
    sets: Marks,
    before: u64,
    after: u64,
    end: i32,
    least: i32,
    ends: Bounds<'_>,
) -> u64
    requires { (i < job_limit) × Moderate end × AllInTime ends.times.now ends.lengths.now sets.live least }
    ensures { OrderLeft ends.entry.times.now ends.entry.lengths.now i sets.live sets.valid before after end result }
{
    if end <= least {
        return 0;
    }
    let apart = ground_sets::union(before, kept_apart(i, sets.valid, after));
    late(
        ground_sets::difference(ground_sets::without(sets.live, i), apart),
        end,
        ends,
    )
}

// R2: the jobs with arcs both ways to i, where it is valid.
fn excluded(i: usize, valid: u64, before: u64, after: u64) -> u64
    requires { i < job_limit }
    ensures { (k : ℕ) → bit result k ≡ (bit after k && bit before k && bit valid i) }
{
    if ground_sets::has(valid, i) {
        return ground_sets::intersection(after, before);
    }
    0
}

// The jobs after the jobs of a set. One that is after another of them is not looked at by itself.
fn reach(set: u64, after: &[u64; Board::JOBS]) -> u64
    ensures { Reaches after.now set result }
{
    let mut all = 0;
    let mut jobs = Members::of(set);
    while let Some(k) = jobs.next() {
        all = ground_sets::union(all, after[k]);
        jobs.left = ground_sets::difference(jobs.left, all);
    }
    all
}

// R1: the valid jobs after i, where there is a job after them to which there is no arc from i.
fn joined(i: usize, valid: u64, after: u64, afters: &[u64; Board::JOBS]) -> u64
    requires { i < job_limit }
    ensures { JoinLeft afters.now i valid after result }
{
    let through = ground_sets::intersection(after, valid);
    let onward = reach(through, afters);
    if ground_sets::difference(ground_sets::without(onward, i), after) == 0 {
        return 0;
    }
    through
}

// The jobs to pair with i, which ends at `end`; `before` and `after` are its sets, and `afters` those after all jobs.
pub fn partners(
    i: usize,
    sets: Marks,
    before: u64,
    after: u64,
    end: i32,
    least: i32,
    ends: Bounds<'_>,
    afters: &[u64; Board::JOBS],
) -> u64
    requires { (i < job_limit) × Moderate end × AllInTime ends.times.now ends.lengths.now sets.live least }
    ensures { RowLeft i sets.live sets.valid before after end ends.entry.times.now ends.entry.lengths.now afters.now result }
{
    let late = ordered(i, sets, before, after, end, least, ends);
    let both = excluded(i, sets.valid, before, after);
    let through = joined(i, sets.valid, after, afters);
    ground_sets::union(ground_sets::union(late, both), through)
}
