// Where a fact begins to work: what propagation has to look at first on a board that shows it, where nothing else is left to do.
#![tactic(auto)]

ghost use Rattle.std.specs.Prelude.{◌<◌};
ghost use Rattle.paper_board.specs.Paper.Facts.{AboutJobs};
ghost use Rattle.paper_board.specs.Paper.Limits.{job_limit};
ghost use Rattle.paper_board.specs.Paper.Values.{fact_of};

use engine_agenda::Agenda;
use engine_neighbours::Arcs;
use engine_sides::Sides;
use paper_board::Board;
use paper_board::facts::{Fact, Side};

// A job whose window was moved on one side. A valid one moves the jobs on its other side, which are asked before all that follows: a
// contradiction there is the nearest.
fn moved(board: &Board, side: Side, job: usize) -> Agenda
    requires { job < job_limit }
{
    let arcs = Arcs {
        before: &board.before,
        after: &board.after,
    };
    let pushed = if board.marks[job] == Board::VALID {
        arcs.on(side).opposite[job]
    } else {
        0
    };
    Agenda {
        moved: Sides::default().with(side, ground_sets::with(0, job)),
        new: Sides::default().with(side, pushed),
        ..Agenda::nothing()
    }
}

// A new arc: only a valid job moves the other one, and joins others through itself.
fn joined(board: &Board, from: usize, to: usize) -> Agenda
    requires { (from < job_limit) × (to < job_limit) }
{
    let mut due = Agenda::nothing();
    if board.marks[from] == Board::VALID {
        due.new.early = ground_sets::with(0, to);
        due.through = ground_sets::with(0, from);
    }
    if board.marks[to] == Board::VALID {
        due.new.late = ground_sets::with(0, from);
        due.through = ground_sets::with(due.through, to);
    }
    due.crossed = due.through;
    due
}

// A job that takes place from now on: what is before it and after it moves.
fn validated(board: &Board, job: usize) -> Agenda
    requires { job < job_limit }
{
    let it = ground_sets::with(0, job);
    Agenda {
        new: Sides {
            early: board.after[job],
            late: board.before[job],
        },
        through: it,
        crossed: it,
        ..Agenda::nothing()
    }
}

// An invalid mark gives rise to nothing: it takes a job and its arcs away.
pub fn concerned(board: &Board, fact: Fact) -> Agenda
    requires { AboutJobs job_limit (fact_of fact) }
{
    match fact {
        Fact::Arc { from, to } => joined(board, from, to),
        Fact::Bound { side, job, .. } => moved(board, side, job),
        Fact::Valid { job } => validated(board, job),
        Fact::Invalid { .. } => Agenda::nothing(),
    }
}

// A job added: it has no arcs yet.
pub fn added(job: usize) -> Agenda
    requires { job < job_limit }
{
    let it = ground_sets::with(0, job);
    Agenda {
        moved: Sides {
            early: it,
            late: it,
        },
        ..Agenda::nothing()
    }
}
