// The search at a pair of jobs: what R1, R2 and R3 infer of its arcs and marks.
#![tactic(auto)]

ghost use Rattle.std.specs.Prelude.{◌≡◌, not, ◌&&◌, ◌<◌, ◌+ℤ◌};
ghost use Rattle.std.specs.Int.Signed.{lt_z};
ghost use Rattle.ground_sets.specs.Bit.{bit};
ghost use Rattle.ground_arithmetic.specs.Time.{Moderate};
ghost use Rattle.paper_board.specs.Paper.Limits.{job_limit};
ghost use Rattle.engine_findings.specs.InferredOf.{inferred_of};
ghost use Rattle.engine_pair_rules.specs.PairSearched.{PairSearched, PairTested, Unjoined};

use paper_board::facts::Fact;

// R3: does k, started once i has ended, end too late?
pub fn is_late(end: i32, length: i32, latest: i32) -> bool
    requires { Moderate end × Moderate length }
    ensures { result ≡ lt_z latest (end +ℤ length) }
{
    latest < ground_arithmetic::sum(end, length)
}

// What the rules read at a pair of jobs: the valid jobs, the sets after and before the first job, the set after the second, and whether
// the second would end too late after the first.
#[derive(Clone, Copy)]
pub struct Pair {
    pub first: usize,
    pub second: usize,
    pub valid: u64,
    pub after: u64,
    pub before: u64,
    pub onward: u64,
    pub late: bool,
    ghost places: { (first < job_limit) × (second < job_limit) },
}

impl Pair {
    // R2: are there arcs both ways between the two jobs, and is the first valid?
    fn excludes(self) -> bool
        ensures { result ≡ (bit self.after self.second && bit self.before self.second && bit self.valid self.first) }
    {
        let both = ground_sets::intersection(self.after, self.before);
        ground_sets::has(both, self.second) && ground_sets::has(self.valid, self.first)
    }

    // R3: has the second to come before the first, with no arc that way yet?
    fn orders(self) -> bool
        ensures { result ≡ (self.late && not (bit self.before self.second)) }
    {
        self.late && !ground_sets::has(self.before, self.second)
    }

    // R1: the jobs after the second, valid and itself after the first, to which there is no arc from the first yet.
    fn unjoined(self) -> u64
        ensures { Unjoined self.first self.second self.valid self.after self.onward result }
    {
        let through = ground_sets::intersection(self.valid, self.after);
        if !ground_sets::has(through, self.second) {
            return 0;
        }
        ground_sets::difference(ground_sets::without(self.onward, self.first), self.after)
    }

    // Does R1, R2 or R3 apply at the pair?
    pub fn applies(self) -> bool
        ensures { PairTested self.first self.second self.valid self.after self.before self.onward self.late result }
    {
        self.excludes() || self.orders() || self.unjoined() != 0
    }

    // What R1, R2 and R3 infer at the pair.
    pub fn inferred(self) -> Option<Fact>
        ensures { PairSearched self.first self.second self.valid self.after self.before self.onward self.late (inferred_of result) }
    {
        if self.excludes() {
            return Some(Fact::Invalid { job: self.second });
        }
        if self.orders() {
            return Some(Fact::Arc {
                from: self.second,
                to: self.first,
            });
        }
        let missing = self.unjoined();
        if missing != 0 {
            return Some(Fact::Arc {
                from: self.first,
                to: ground_walks::lowest(missing),
            });
        }
        None
    }
}
