// The windows and lengths of all jobs, as the sums read them: on both sides, or on one.
ghost use Rattle.std.specs.Prelude.{◌≡◌, ◌<◌};
ghost use Rattle.ground_arithmetic.specs.Time.{Moderate};
ghost use Rattle.paper_board.specs.Paper.Limits.{job_limit};
ghost use Rattle.paper_board.specs.Paper.Values as paper;
ghost use Rattle.engine_sums.specs.Sums as sums;

use crate::{above, bound, turned};
use paper_board::Board;
use paper_board::facts::Side;

// The jobs' bounds on one side, and their lengths.
#[derive(Clone, Copy)]
pub struct Bounds<'a> {
    pub side: Side,
    pub times: &'a [i32; Board::JOBS],
    pub lengths: &'a [i32; Board::JOBS],
    ghost hours: { sums.Times times.now },
    ghost work: { sums.Lengths lengths.now },
}

impl<'a> Bounds<'a> {
    // The bound that stands at place k.
    pub fn at(self, k: usize) -> i32
        requires { k < job_limit }
        ensures { result ≡ sums.bound_at (paper.side_of self.entry.side) self.entry.times.now k }
    {
        bound(self.side, self.times, k)
    }

    // The bound that the job at place k leaves to the jobs beyond it.
    pub fn end(self, k: usize) -> i32
        requires { k < job_limit }
        ensures { result ≡ sums.end_at (paper.side_of self.entry.side) self.entry.times.now self.entry.lengths.now k }
    {
        ground_arithmetic::sum(self.at(k), self.lengths[k])
    }

    // The bound that the job at place k alone leaves, where it is above the floor, a time.
    pub fn single(self, k: usize, floor: i32) -> Option<i32>
        requires { (k < job_limit) × Moderate floor }
        ensures { sums.bound_of (paper.side_of self.entry.side) result ≡ sums.over (paper.turned (paper.side_of self.entry.side) floor) (sums.end_at (paper.side_of self.entry.side) self.entry.times.now self.entry.lengths.now k) }
    {
        above(self.side, turned(self.side, floor), self.end(k))
    }
}

// The jobs' windows and lengths.
#[derive(Clone, Copy)]
pub struct Windows<'a> {
    pub earliest: &'a [i32; Board::JOBS],
    pub latest: &'a [i32; Board::JOBS],
    pub lengths: &'a [i32; Board::JOBS],
    ghost early: { sums.Times earliest.now },
    ghost late: { sums.Times latest.now },
    ghost work: { sums.Lengths lengths.now },
}

impl<'a> Windows<'a> {
    // The times that stand on one side.
    pub fn times(self, side: Side) -> &'a [i32; Board::JOBS]
        ensures { result.now ≡ sums.times_on (paper.side_of side) self.entry.earliest.now self.entry.latest.now }
    {
        match side {
            Side::Early => self.earliest,
            Side::Late => self.latest,
        }
    }

    // The bounds on one side.
    pub fn on(self, side: Side) -> Bounds<'a>
        ensures side { result.side ≡ side }
        ensures times { result.times.now ≡ sums.times_on (paper.side_of side) self.entry.earliest.now self.entry.latest.now }
        ensures lengths { result.lengths.now ≡ self.entry.lengths.now }
    {
        match side {
            Side::Early => Bounds {
                side,
                times: self.earliest,
                lengths: self.lengths,
            },
            Side::Late => Bounds {
                side,
                times: self.latest,
                lengths: self.lengths,
            },
        }
    }
}
