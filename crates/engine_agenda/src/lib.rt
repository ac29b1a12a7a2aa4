// What propagation has still to look at. Nothing is promised of it: whatever is left out here, the search finds.
#![tactic(auto)]

use engine_ends::Ends;
use engine_precedence::Pushed;
use engine_sides::Sides;
use paper_board::facts::Side;
use std::ops::BitOr;

// On each side the jobs with a new one beyond them, which may move them (R4 on the early side, R5 on the late one), and with them the
// neighbours of a job that a fact moves; the jobs behind moved ones, which move only seldom, since most arcs have room to spare; and the jobs
// that have moved (R6, R3). Those through which R1 may join others, and those that may have arcs both ways to another (R2). The side whose
// turn it is.
#[derive(Clone, Copy)]
pub struct Agenda {
    pub new: Sides<u64>,
    pub behind: Sides<u64>,
    pub moved: Sides<u64>,
    pub through: u64,
    pub crossed: u64,
    pub next: Side,
}

impl Agenda {
    // Nothing to do.
    pub fn nothing() -> Agenda {
        Agenda {
            new: Sides::default(),
            behind: Sides::default(),
            moved: Sides::default(),
            through: 0,
            crossed: 0,
            next: Side::Early,
        }
    }

    // Is nothing left to do?
    pub fn is_done(&self) -> bool {
        let windows = self.new | self.behind | self.moved;
        let arcs = ground_sets::union(self.through, self.crossed);
        ground_sets::union(windows.either(), arcs) == 0
    }

    // What is left where some jobs alone are live.
    pub fn among(self, live: u64) -> Agenda {
        Agenda {
            new: self.new.among(live),
            behind: self.behind.among(live),
            moved: self.moved.among(live),
            ..self
        }
    }

    // On which side jobs are to move next. The new ones come first, on either side: with new ones beyond them they do move, and may have moved
    // further by the time that the others are asked; next to a fact they show the nearest contradiction. The sides take turns, so that long
    // work on one doesn't put off a contradiction on the other.
    pub fn next_side(&self) -> Side {
        let sets = if self.new.either() != 0 {
            self.new
        } else {
            self.behind
        };
        if *sets.on(self.next) != 0 {
            return self.next;
        }
        self.next.other()
    }

    // The jobs to move on that side.
    pub fn due_on(&self, side: Side) -> u64 {
        let new = *self.new.on(side);
        if new != 0 {
            return new;
        }
        *self.behind.on(side)
    }

    // A side on which jobs have moved, where there is one.
    pub fn moved_side(&self) -> Side {
        if self.moved.early != 0 {
            return Side::Early;
        }
        Side::Late
    }

    // After R2.
    pub fn checked(self) -> Agenda {
        Agenda { crossed: 0, ..self }
    }

    // After R1: `found` are the ends of the arcs that it set. What R1 infers from these it has inferred already.
    pub fn joined(self, found: Ends) -> Agenda {
        Agenda {
            new: self.new | found.new,
            through: 0,
            crossed: found.crossed,
            ..self
        }
    }

    // After R3 on one side.
    pub fn detected(self, side: Side, found: Ends) -> Agenda {
        Agenda {
            new: self.new | found.new,
            moved: self.moved.with(side, 0),
            through: found.through,
            crossed: found.crossed,
            ..self
        }
    }

    // After R4 or R5 at some jobs.
    pub fn pushed(self, side: Side, done: u64, step: Pushed) -> Agenda {
        let new = ground_sets::difference(*self.new.on(side), done);
        let waiting = ground_sets::difference(*self.behind.on(side), done);
        let behind = ground_sets::union(waiting, step.next);
        let moved = ground_sets::union(*self.moved.on(side), step.moved);
        Agenda {
            new: self.new.with(side, new),
            behind: self.behind.with(side, behind),
            moved: self.moved.with(side, moved),
            next: side.other(),
            ..self
        }
    }
}

// What two facts give rise to.
impl BitOr for Agenda {
    type Output = Agenda;

    fn bitor(self, others: Agenda) -> Agenda {
        Agenda {
            new: self.new | others.new,
            behind: self.behind | others.behind,
            moved: self.moved | others.moved,
            through: self.through | others.through,
            crossed: self.crossed | others.crossed,
            next: Side::Early,
        }
    }
}
