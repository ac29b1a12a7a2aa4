// An entry call on a board that has passed check 0, in three parts: the checks of the table, the attempt, and what is concluded from it.
// Who holds such a board pays for no second check.
#![tactic(auto)]

ghost use Rattle.std.specs.Prelude.{◌≡◌, true};
ghost use Rattle.paper_rules.specs.Update.Updates.{◌and_then◌};
ghost use Rattle.paper_closure.specs.Passes.{passes};
ghost use Rattle.paper_closure.specs.Closure as closing;
ghost use Rattle.paper_entries.specs.Paper.Enter as paper;
ghost use Rattle.paper_entries.specs.Paper.EntryOf.{entry_of};
ghost use Rattle.call_statements.specs.Stated.{raw_of, Storable};

use call_answers::{acceptance, impossible, refused};
use call_attempts::attempt;
use call_entry_checks::entry_checks;
use call_raw_entries::is_shown;
use call_statements::{Stated, stated_by};
use paper_board::Board;
use paper_entries::{Answer, Entered, Entry};

// The attempt on a copy of the board, and what is concluded: the board that it leaves, or refusal 8. The two stand in one function, since each
// that hands on a board copies it. What the board shows already alters nothing, and a board that passes check 0 is closed.
#[tactic(auto, using(crate::specs::Concluded::concluding))]
fn decide(board: Board, stated: Stated, accepted: Answer) -> Entered
    requires { (passes board ≡ true) × Storable board.jobs stated }
    ensures { result ≡ paper.concluded board accepted (raw_of board stated and_then closing.closure) }
{
    if is_shown(&board, stated) {
        return Entered {
            answer: accepted,
            board,
        };
    }
    let mut next = board;
    match attempt(&mut next, stated) {
        Some(()) => Entered {
            answer: accepted,
            board: next,
        },
        None => impossible(board),
    }
}

pub fn enter(board: Board, entry: Entry) -> Entered
    requires { passes board ≡ true }
    ensures { result ≡ paper.enter board (entry_of entry) }
{
    match entry_checks(board.jobs, entry) {
        Err(refusal) => refused(refusal, board),
        Ok(()) => decide(board, stated_by(entry), acceptance(board.jobs, entry)),
    }
}
