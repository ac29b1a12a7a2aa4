// Signed minutes: sums, the greater, the lesser, the gap.
#![tactic(auto)]

ghost use Rattle.std.specs.Prelude.{◌≡◌, ◌+ℤ◌, ◌-ℤ◌};
ghost use Rattle.ground_arithmetic.specs.Time as time;

// The sum of two times, or of a time and a length.
pub fn sum(a: i32, b: i32) -> i32
    requires { time.Moderate a × time.Moderate b }
    ensures { result ≡ a +ℤ b }
{
    a + b
}

// The gap between two jobs: the earliest start `e` of the second less the latest end `d` of the first.
pub fn gap(e: i32, d: i32) -> i32
    requires { time.Moderate e × time.Moderate d }
    ensures { result ≡ e -ℤ d }
{
    e - d
}

pub fn greater(a: i32, b: i32) -> i32
    ensures { result ≡ time.greater a b }
{
    a.max(b)
}

pub fn lesser(a: i32, b: i32) -> i32
    ensures { result ≡ time.lesser a b }
{
    a.min(b)
}
