// What is stated, put on a board in place: the board that shows it, nothing inferred yet.
#![tactic(auto)]

ghost use Rattle.std.specs.Prelude.{◌≡◌, true};
ghost use Rattle.std.proofs.Math.Option.{some};
ghost use Rattle.paper_board.specs.declared.Board as boards;
ghost use Rattle.paper_board.specs.Paper.Limits.{Within};
ghost use Rattle.paper_board.specs.Paper.Parts.{filled};
ghost use Rattle.paper_rules.specs.Update.Alone.{ArraysAlone};
ghost use Rattle.paper_rules.specs.Update.Possibly.{possibly};
ghost use Rattle.call_statements.specs.Stated.{raw_of, grown, Storable, HavePlaces};

use call_statements::Stated;
use engine_agenda::Agenda;
use engine_due::{added, concerned};
use engine_updates::update;
use paper_board::Board;

// Does the board show it already? Where it does, nothing need be done; a `false` too many costs time and no answer.
#[tactic(auto, using(call_statements::specs::Stated::shown_facts))]
pub fn is_shown(board: &Board, stated: Stated) -> bool
    requires { HavePlaces stated }
    ensures { (b : boards.Board) → let c = filled b b.lengths board.now.earliest board.now.latest board.now.marks board.now.after b.before in Within c → result ≡ true → raw_of c stated ≡ some c }
{
    match stated {
        Stated::Row { .. } => false,
        Stated::One(fact) => engine_updates::is_shown(board, fact),
        Stated::Two(first, second) => {
            engine_updates::is_shown(board, first) && engine_updates::is_shown(board, second)
        }
    }
}

// Puts it on the board, and gives what propagation has to look at first; or none, where a mark would have to change, and then the board's
// arrays are of no account. Nothing is promised of what is due: whatever comes first, the closure is the same.
#[tactic(auto, using(call_statements::specs::Stated::put_facts))]
pub fn state(board: &mut Board, stated: Stated) -> Option<Agenda>
    requires { Within board.old × Storable board.old.jobs stated }
    ensures kept { ArraysAlone (grown board.old stated) board.new }
    ensures shown { raw_of board.old stated ≡ possibly result board.new }
{
    match stated {
        Stated::Row {
            length,
            earliest,
            latest,
            mark,
        } => {
            let job = board.jobs;
            board.lengths[job] = length;
            board.earliest[job] = earliest;
            board.latest[job] = latest;
            board.marks[job] = mark;
            board.jobs = job + 1;
            Some(added(job))
        }
        Stated::One(fact) => {
            update(board, fact)?;
            Some(concerned(board, fact))
        }
        Stated::Two(first, second) => {
            update(board, first)?;
            update(board, second)?;
            Some(concerned(board, first) | concerned(board, second))
        }
    }
}
