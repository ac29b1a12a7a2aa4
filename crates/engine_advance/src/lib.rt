// Propagation on a board, and the jobs struck out that it finds can't stay.
#![tactic(auto)]

ghost use Rattle.paper_board.specs.Paper.Limits.{Within};
ghost use Rattle.paper_rules.specs.Update.Alone.{ArraysAlone};
ghost use Rattle.engine_advance.specs.Advances.{Advances};

use engine_agenda::Agenda;
use engine_marks::Marks;
use engine_propagation::propagate;
use engine_strikes::strike;
use paper_board::Board;

// Propagation, and the jobs struck out that it finds can't stay. Gives the live and the valid jobs that there are then; or none, where a
// valid job can't stay: that is a contradiction.
pub fn advance(board: &mut Board, due: Agenda) -> Option<Marks>
    requires { Within board.old }
    ensures kept { ArraysAlone board.old board.new }
    ensures advances { Advances board.old result board.new }
{
    let marks = Marks::of(board);
    let stuck = propagate(board, marks, due);
    if stuck == 0 {
        return Some(marks);
    }
    if ground_sets::intersection(stuck, marks.valid) != 0 {
        return None;
    }
    strike(board, stuck);
    Some(Marks {
        live: ground_sets::difference(marks.live, stuck),
        valid: marks.valid,
    })
}
