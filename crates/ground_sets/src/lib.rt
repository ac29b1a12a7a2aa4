// Sets of at most 64 jobs, each set one word with bit k for job k: test, union and clearing by shift and mask.
#![tactic(auto)]

ghost use Rattle.std.specs.Prelude.{◌≡◌, ◌<◌};
ghost use Rattle.ground_sets.specs.Bit as sets;

// Is job k in the set w?
pub fn has(w: u64, k: usize) -> bool
    requires { k < sets.width }
    ensures { result ≡ sets.bit w k }
{
    (w >> k) & 1 == 1
}

// The set w with job k put in.
pub fn with(w: u64, k: usize) -> u64
    requires { k < sets.width }
    ensures { result ≡ sets.with w k }
{
    w | (1 << k)
}

// The set w with job k taken out.
pub fn without(w: u64, k: usize) -> u64
    requires { k < sets.width }
    ensures { result ≡ sets.without sets.width w k }
{
    w & !(1 << k)
}

// The jobs of a and of b.
pub fn union(a: u64, b: u64) -> u64
    ensures { result ≡ sets.union a b }
{
    a | b
}

// The jobs that a and b share.
pub fn intersection(a: u64, b: u64) -> u64
    ensures { result ≡ sets.intersection a b }
{
    a & b
}

// The jobs of a that are not in b.
pub fn difference(a: u64, b: u64) -> u64
    ensures { result ≡ sets.difference sets.width a b }
{
    a & !b
}
