// The sums that R4 and R5 compare a bound with: a sum as a bound on either side, and as a time.
#![tactic(auto)]

ghost use Rattle.std.specs.Prelude.{◌≡◌, ◌<◌};
ghost use Rattle.std.specs.Int.Signed.{lt_z};
ghost use Rattle.ground_arithmetic.specs.Time.{Moderate};
ghost use Rattle.paper_board.specs.Paper.Limits.{job_limit};
ghost use Rattle.paper_board.specs.Paper.Values as paper;
ghost use Rattle.engine_sums.specs.Sums as sums;

use paper_board::Board;
use paper_board::facts::Side;

pub mod bounds;

// A time as a bound that closing can only raise, and back.
pub fn turned(side: Side, time: i32) -> i32
    requires { Moderate time }
    ensures { result ≡ paper.turned (paper.side_of side) time }
{
    match side {
        Side::Early => time,
        Side::Late => -time,
    }
}

// Is a time, as a bound on one side, below another?
pub fn is_lower(side: Side, time: i32, other: i32) -> bool
    ensures { result ≡ lt_z (paper.turned (paper.side_of side) time) (paper.turned (paper.side_of side) other) }
{
    match side {
        Side::Early => time < other,
        Side::Late => other < time,
    }
}

// The bound that stands at place k.
pub fn bound(side: Side, times: &[i32; Board::JOBS], k: usize) -> i32
    requires times { sums.Times times.now }
    requires k_lt_job_limit { k < job_limit }
    ensures { result ≡ sums.bound_at (paper.side_of side) times.now k }
{
    turned(side, times[k])
}

// A bound as a time, where it is above the floor.
pub fn above(side: Side, floor: i32, best: i32) -> Option<i32>
    requires { Moderate best }
    ensures { sums.bound_of (paper.side_of side) result ≡ sums.over floor best }
{
    if floor < best {
        return Some(turned(side, best));
    }
    None
}
