// The closure: the rules applied until nothing is left to infer, or a mark would have to change. The board is altered in place.
#![tactic(auto)]

ghost use Rattle.std.specs.Prelude.{◌≡◌};
ghost use Rattle.paper_board.specs.Paper.Limits.{Within};
ghost use Rattle.paper_rules.specs.Update.Alone.{ArraysAlone};
ghost use Rattle.paper_rules.specs.Update.Possibly.{possibly};
ghost use Rattle.paper_closure.specs.Closure as closing;

use engine_advance::advance;
use engine_agenda::Agenda;
use engine_due::concerned;
use engine_search::find;
use engine_updates::update;
use paper_board::Board;

// Which inference comes first doesn't matter: any run of them ends in the same board. Propagation, from what is due, makes
// most of them at the least cost; that none is left is what the search shows.
pub fn closure(board: &mut Board, due: Agenda) -> Option<()>
    requires { Within board.old }
    ensures kept { ArraysAlone board.old board.new }
    ensures closed { closing.closure board.old ≡ possibly result board.new }
{
    let mut due = due;
    loop {
        let marks = advance(board, due)?;
        let Some(fact) = find(board, marks) else {
            return Some(());
        };
        update(board, fact)?;
        due = concerned(board, fact);
    }
}
