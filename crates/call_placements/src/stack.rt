// The jobs that the planner has placed, as a stack: the last one is the first to be taken back.
ghost use Rattle.std.specs.Prelude.{◌≡◌, ◌<◌, ◌≤◌, List, [], ◌∷◌, length, take, reverse, MatchOption};
ghost use Rattle.paper_board.specs.Paper.Limits.{job_limit};

use paper_board::Board;
use std::marker::Model;

// A job placed, and what comes back when it is taken back: the jobs still to be tried in its place, and the minute from which the dock is free.
#[derive(Clone, Copy)]
pub struct Placed {
    pub job: usize,
    pub left: u64,
    pub free: i32,
}

#[derive(Drop)]
pub struct Stack {
    places: [Placed; Board::JOBS],
    depth: usize,
}

// Clauses see the jobs placed, the last one first.
impl Model for Stack {
    ghost use Rattle.std.specs.Prelude.{List, ◌≤◌, take, reverse};
    ghost use Rattle.paper_board.specs.Paper.Limits.{job_limit};
    ghost use Rattle.call_placements.specs.declared.stack.Placed.{Placed};

    ghost Value = { List Placed };

    ghost view = { λ s. reverse (take s.depth s.places) };

    ghost invariant = { λ s. s.depth ≤ job_limit };
}

impl Stack {
    // No job is placed.
    pub fn empty() -> Self
        ensures { result ≡ [] }
    {
        Stack {
            places: [Placed {
                job: 0,
                left: 0,
                free: 0,
            }; Board::JOBS],
            depth: 0,
        }
    }

    pub fn push(&mut self, placed: Placed)
        requires { length self.old < job_limit }
        ensures { self.new ≡ placed ∷ self.old }
    {
        self.places[self.depth] = placed;
        self.depth += 1;
    }

    pub fn pop(&mut self) -> Option<Placed>
        ensures { MatchOption result ((self.old ≡ []) × (self.new ≡ [])) (λ placed. self.old ≡ placed ∷ self.new) }
    {
        if self.depth == 0 {
            return None;
        }
        self.depth -= 1;
        Some(self.places[self.depth])
    }

    // In the order of placing.
    pub fn placed(&self) -> &[Placed]
        ensures { reverse result.now ≡ self.now }
    {
        &self.places[..self.depth]
    }
}
