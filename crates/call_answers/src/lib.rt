// How an entry call answers: accepted, or refused, and then the board as it was but for the tally.
#![tactic(auto)]

ghost use Rattle.std.specs.Prelude.{◌≡◌, ◌+◌, min};
ghost use Rattle.paper_board.specs.Paper.Limits.{tally_limit};
ghost use Rattle.paper_entries.specs.Paper.Enter as paper;
ghost use Rattle.paper_entries.specs.Paper.EntryOf.{entry_of};

use paper_board::{Board, Refusal};
use paper_entries::{Answer, Entered, Entry};

// "A refusal carries its number only and alters nothing"
pub fn refused(refusal: Refusal, board: Board) -> Entered
    ensures { result ≡ paper.refused refusal board }
{
    Entered {
        answer: Err(refusal),
        board,
    }
}

// The tally "stops at 1000000".
fn next_tally(tally: u32) -> u32
    ensures { result ≡ min (tally + 1) tally_limit }
{
    tally.saturating_add(1).min(Board::TALLY)
}

// "number 8 adds one to the tally"
pub fn impossible(board: Board) -> Entered
    ensures { result ≡ paper.refused Refusal.Impossible (paper.counted board) }
{
    let mut counted = board;
    counted.books.tally = next_tally(board.books.tally);
    refused(Refusal::Impossible, counted)
}

// An addition "gives the job's number".
pub fn acceptance(jobs: usize, entry: Entry) -> Answer
    ensures { result ≡ paper.acceptance jobs (entry_of entry) }
{
    match entry {
        Entry::Addition { .. } => Ok(Some(jobs)),
        Entry::Arc { .. } | Entry::Mark { .. } | Entry::Cut { .. } => Ok(None),
    }
}
