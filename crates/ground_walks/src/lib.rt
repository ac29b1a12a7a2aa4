// Walks over a set of jobs, up or down: an iterator that takes out one job at a time.
#![tactic(auto)]

ghost use Rattle.std.specs.Prelude.{false, ◌≡◌, ◌≢◌};
ghost use Rattle.std.specs.Iterator.{at_most};
ghost use Rattle.ground_sets.specs.Bit as sets;
ghost use Rattle.ground_walks.specs.Steps as walks;
ghost use Rattle.ground_walks.specs.Takes.{Lowest, Highest, Takes};

use ground_sets::without;

// The least job of a set that has one.
pub fn lowest(w: u64) -> usize
    requires { w ≢ 0 }
    ensures { Lowest sets.width w result }
{
    u64::trailing_zeros(w) as usize
}

// The greatest job of a set that has one.
pub fn highest(w: u64) -> usize
    requires { w ≢ 0 }
    ensures { Highest sets.width w result }
{
    63 - u64::leading_zeros(w) as usize
}

// The next job of a walk over a set that has one, its least or, on a walk downward, its greatest; and the rest of the set. Upward the code has
// no need of the job to tell the rest, so that a walk goes on before it is known.
fn take(w: u64, downward: bool) -> (usize, u64)
    requires { w ≢ 0 }
    ensures { Takes sets.width downward w result.0 result.1 }
{
    if downward {
        let job = highest(w);
        return (job, without(w, job));
    }
    (lowest(w), w & (w - 1))
}

// A walk over the jobs that are left of a set, up or down, which takes out one at a time.
#[derive(Clone, Copy)]
pub struct Members {
    pub left: u64,
    pub downward: bool,
}

impl Members {
    // A walk over a set, its least job first.
    pub fn of(set: u64) -> Self
        ensures { (result.left ≡ set) × (result.downward ≡ false) }
    {
        Self::along(set, false)
    }

    // A walk over a set, its least job first or, downward, its greatest.
    pub fn along(set: u64, downward: bool) -> Self
        ensures { (result.left ≡ set) × (result.downward ≡ downward) }
    {
        Self {
            left: set,
            downward,
        }
    }
}

impl Iterator for Members {
    type Item = usize;

    ghost next_gives = { walks.Steps };

    ghost remaining = { λ w. at_most w.left };

    fn next(&mut self) -> Option<usize> {
        if self.left == 0 {
            return None;
        }
        let (job, rest) = take(self.left, self.downward);
        self.left = rest;
        Some(job)
    }
}
