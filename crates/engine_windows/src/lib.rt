// A job's window, and what a bound on one side makes of it.
#![tactic(auto)]

ghost use Rattle.std.specs.Prelude.{◌≡◌, ◌+ℤ◌};
ghost use Rattle.std.specs.Int.Signed.{le_z, lt_z};
ghost use Rattle.ground_arithmetic.specs.Time.{Moderate};
ghost use Rattle.paper_board.specs.Paper.Values.{side_of, turned};
ghost use Rattle.engine_windows.specs.Windows as windows;

use paper_board::facts::Side;

#[derive(Clone, Copy)]
pub struct Window {
    pub earliest: i32,
    pub latest: i32,
}

impl Window {
    // Is the window wider on that side than the bound allows?
    pub fn exceeds(self, side: Side, time: i32) -> bool
        ensures { result ≡ lt_z (windows.edge (side_of side) self) (turned (side_of side) time) }
    {
        match side {
            Side::Early => self.earliest < time,
            Side::Late => time < self.latest,
        }
    }

    // The window with its bound on one side put to `time`.
    pub fn bounded(self, side: Side, time: i32) -> Self
        ensures { result ≡ windows.bounded (side_of side) time self }
    {
        match side {
            Side::Early => Self {
                earliest: time,
                latest: self.latest,
            },
            Side::Late => Self {
                earliest: self.earliest,
                latest: time,
            },
        }
    }

    // R6: does a job of that length fit?
    pub fn holds(self, length: i32) -> bool
        requires { Moderate self.earliest × Moderate length }
        ensures { result ≡ le_z (self.earliest +ℤ length) self.latest }
    {
        ground_arithmetic::sum(self.earliest, length) <= self.latest
    }
}
