// A pair with a value for each side of the windows, as the jobs that have moved on either.
#![tactic(auto)]

ghost use Rattle.std.specs.Prelude.{◌≡◌};
ghost use Rattle.ground_sets.specs.Bit.{union, intersection};
ghost use Rattle.engine_sides.specs.OnSide.{value_on, with_value};

use paper_board::facts::Side;
use std::ops::BitOr;

#[derive(Clone, Copy, Default)]
pub struct Sides<T> {
    pub early: T,
    pub late: T,
}

impl<T> Sides<T> {
    pub fn on(&self, side: Side) -> &T
        ensures { result.now ≡ value_on self.now side }
    {
        match side {
            Side::Early => &self.early,
            Side::Late => &self.late,
        }
    }

    pub fn on_mut(&mut self, side: Side) -> &mut T
        ensures { result.now ≡ value_on self.old side }
    {
        match side {
            Side::Early => &mut self.early,
            Side::Late => &mut self.late,
        }
    }
}

impl<T: Copy> Sides<T> {
    // The pair with another value on a side.
    pub fn with(self, side: Side, value: T) -> Sides<T>
        ensures { result ≡ with_value self side value }
    {
        match side {
            Side::Early => Sides {
                early: value,
                late: self.late,
            },
            Side::Late => Sides {
                early: self.early,
                late: value,
            },
        }
    }
}

impl<T: BitOr<Output = T>> BitOr for Sides<T> {
    type Output = Sides<T>;

    ghost can_bitor = { λ a b. T.can_bitor a.early b.early × T.can_bitor a.late b.late };

    ghost bitor_gives = { λ a b c. T.bitor_gives a.early b.early c.early × T.bitor_gives a.late b.late c.late };

    fn bitor(self, others: Sides<T>) -> Sides<T> {
        Sides {
            early: self.early | others.early,
            late: self.late | others.late,
        }
    }
}

impl Sides<u64> {
    // The jobs on either side.
    pub fn either(self) -> u64
        ensures { result ≡ union self.early self.late }
    {
        ground_sets::union(self.early, self.late)
    }

    // Those of some jobs alone.
    pub fn among(self, jobs: u64) -> Sides<u64>
        ensures early { result.early ≡ intersection self.early jobs }
        ensures late { result.late ≡ intersection self.late jobs }
    {
        Sides {
            early: ground_sets::intersection(self.early, jobs),
            late: ground_sets::intersection(self.late, jobs),
        }
    }
}
