// The attempt of an entry: what it states is put on a board, and the board that shows it is closed, all in place.
#![tactic(auto)]

ghost use Rattle.std.specs.Prelude.{◌≡◌};
ghost use Rattle.paper_board.specs.Paper.Limits.{Within};
ghost use Rattle.paper_rules.specs.Update.Alone.{ArraysAlone};
ghost use Rattle.paper_rules.specs.Update.Possibly.{possibly};
ghost use Rattle.paper_rules.specs.Update.Updates.{◌and_then◌};
ghost use Rattle.paper_closure.specs.Closure as closing;
ghost use Rattle.call_statements.specs.Stated.{raw_of, grown, Storable};

use call_raw_entries::state;
use call_statements::Stated;
use engine_agenda::Agenda;
use engine_closure::closure;
use paper_board::Board;

// None, where no closed board shows what is stated, and then the board's arrays are of no account; a job that is stated is counted still.
#[tactic(auto, using(crate::specs::Attempts::attempting))]
pub fn attempt(board: &mut Board, stated: Stated) -> Option<()>
    requires { Within board.old × Storable board.old.jobs stated }
    ensures kept { ArraysAlone (grown board.old stated) board.new }
    ensures closed { (raw_of board.old stated and_then closing.closure) ≡ possibly result board.new }
{
    let due: Agenda = state(board, stated)?;
    closure(board, due)
}
