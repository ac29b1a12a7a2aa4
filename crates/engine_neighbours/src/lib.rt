// The sets of jobs that the arcs lead to, of all jobs: as words before and after them, or as one side sees them.
#![tactic(auto)]

ghost use Rattle.std.specs.Prelude.{◌≡◌};
ghost use Rattle.paper_board.specs.Paper.Values.{side_of};
ghost use Rattle.engine_neighbours.specs.WordsOn.{words_on};

use paper_board::Board;
use paper_board::facts::Side;

// The jobs that lie beyond each job on one side, and those on its other side.
#[derive(Clone, Copy)]
pub struct Neighbours<'a> {
    pub beyond: &'a [u64; Board::JOBS],
    pub opposite: &'a [u64; Board::JOBS],
}

// The jobs before each job, and those after it.
#[derive(Clone, Copy)]
pub struct Arcs<'a> {
    pub before: &'a [u64; Board::JOBS],
    pub after: &'a [u64; Board::JOBS],
}

impl<'a> Arcs<'a> {
    // The jobs as one side sees them.
    pub fn on(self, side: Side) -> Neighbours<'a>
        ensures beyond { result.beyond.now ≡ words_on (side_of side) self.entry.before.now self.entry.after.now }
        ensures opposite { result.opposite.now ≡ words_on (side_of side) self.entry.after.now self.entry.before.now }
    {
        match side {
            Side::Early => Neighbours {
                beyond: self.before,
                opposite: self.after,
            },
            Side::Late => Neighbours {
                beyond: self.after,
                opposite: self.before,
            },
        }
    }
}
