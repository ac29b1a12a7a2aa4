// The checks 1 to 7 of the table, as far as each sort of entry has them.
#![tactic(auto)]

ghost use Rattle.std.specs.Prelude.{◌≡◌, [], ◌∷◌};
ghost use Rattle.paper_entries.specs.Paper.Entry as entry;
ghost use Rattle.paper_entries.specs.Paper.Checks.{time_check, window_check, checks, first_refusal};
ghost use Rattle.paper_entries.specs.Paper.EntryOf.{entry_of};
ghost use Rattle.call_checks.specs.RefusalOf.{refusal_of};

use call_checks::{job_check, pair_checks, refuse_if};
use paper_board::range::{between, is_length, is_time};
use paper_board::{Board, Refusal};
use paper_entries::Entry;

// 5 time, 6 window
#[tactic(auto, unfolding(paper_entries::specs::Paper::Checks::first_refusal))]
fn window_checks(earliest: i32, latest: i32) -> Result<(), Refusal>
    ensures { refusal_of result ≡ first_refusal (time_check earliest latest ∷ window_check earliest latest ∷ []) }
{
    refuse_if(!is_time(earliest), Refusal::Time)?;
    refuse_if(!is_time(latest), Refusal::Time)?;
    refuse_if(latest < earliest, Refusal::Window)
}

// 2 job, 7 mark
#[tactic(auto, unfolding(paper_entries::specs::Paper::Checks::first_refusal))]
fn mark_checks(jobs: usize, job: i32, mark: i32) -> Result<(), Refusal>
    ensures { refusal_of result ≡ first_refusal (checks jobs (entry.other (entry.mark job mark))) }
{
    let taken = between(Board::VALID as i32, Board::INVALID as i32, mark);
    job_check(jobs, job)?;
    refuse_if(!taken, Refusal::Mark)
}

// 2 job, 5 time, 6 window
#[tactic(auto, unfolding(paper_entries::specs::Paper::Checks::first_refusal))]
fn cut_checks(jobs: usize, job: i32, earliest: i32, latest: i32) -> Result<(), Refusal>
    ensures { refusal_of result ≡ first_refusal (checks jobs (entry.other (entry.cut job earliest latest))) }
{
    job_check(jobs, job)?;
    window_checks(earliest, latest)
}

// 1 full, 4 length, 5 time, 6 window, 7 mark
#[tactic(auto, unfolding(paper_entries::specs::Paper::Checks::first_refusal))]
fn addition_checks(
    jobs: usize,
    length: i32,
    earliest: i32,
    latest: i32,
    mark: i32,
) -> Result<(), Refusal>
    ensures { refusal_of result ≡ first_refusal (checks jobs (entry.addition length earliest latest mark)) }
{
    let taken = between(Board::UNDECIDED as i32, Board::VALID as i32, mark);
    refuse_if(Board::JOBS <= jobs, Refusal::Full)?;
    refuse_if(!is_length(length), Refusal::Length)?;
    window_checks(earliest, latest)?;
    refuse_if(!taken, Refusal::Mark)
}

// The checks 1 to 7, as far as the entry's sort has them.
pub fn entry_checks(jobs: usize, entry: Entry) -> Result<(), Refusal>
    ensures { refusal_of result ≡ first_refusal (checks jobs (entry_of entry)) }
{
    match entry {
        Entry::Addition {
            length,
            earliest,
            latest,
            mark,
        } => addition_checks(jobs, length, earliest, latest, mark),
        Entry::Arc { from, to } => pair_checks(jobs, from, to),
        Entry::Mark { job, mark } => mark_checks(jobs, job, mark),
        Entry::Cut {
            job,
            earliest,
            latest,
        } => cut_checks(jobs, job, earliest, latest),
    }
}
