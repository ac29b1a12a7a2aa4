// "Refusals by the gate": the lines of the table, the checks of a job and of a pair, and the planner's 9.
#![tactic(auto)]

ghost use Rattle.std.specs.Prelude.{◌≡◌, [], ◌∷◌, pos, ◌≤ℤ◌};
ghost use Rattle.paper_entries.specs.Paper.Entry as entry;
ghost use Rattle.paper_entries.specs.Paper.Checks as paper;
ghost use Rattle.paper_entries.specs.Paper.Checks.{is_job, job_check, pair_checks, budget_check, first_refusal};
ghost use Rattle.call_checks.specs.RefusalOf.{refusal_of};

use paper_board::Refusal;
use paper_board::range::between;

// A line of the table: the call's refusal where the line refuses it.
#[tactic(auto, unfolding(paper_entries::specs::Paper::Checks::first_refusal))]
pub fn refuse_if(refuses: bool, refusal: Refusal) -> Result<(), Refusal>
    ensures { refusal_of result ≡ first_refusal (paper.line refusal refuses ∷ []) }
{
    if refuses { Err(refusal) } else { Ok(()) }
}

// A number that is not negative, as the number of a job.
pub fn index(number: i32) -> usize
    requires { pos 0 ≤ℤ number }
    ensures { result ≡ entry.number number }
{
    number as usize
}

// The number of a mark, as the board holds it.
pub fn mark_value(mark: i32) -> u8
    requires { (pos 0 ≤ℤ mark) × (mark ≤ℤ pos 2) }
    ensures { result ≡ entry.number mark }
{
    mark as u8
}

// The number of tries that a budget allows.
pub fn budget_value(budget: i32) -> u32
    requires { pos 0 ≤ℤ budget }
    ensures { result ≡ entry.number budget }
{
    budget as u32
}

// "numbered from 0"
pub fn is_job(jobs: usize, number: i32) -> bool
    ensures { result ≡ is_job jobs number }
{
    0 <= number && index(number) < jobs
}

// 2 job
pub fn job_check(jobs: usize, job: i32) -> Result<(), Refusal>
    ensures { refusal_of result ≡ first_refusal (job_check jobs job ∷ []) }
{
    refuse_if(!is_job(jobs, job), Refusal::Job)
}

// 2 job, 3 same
#[tactic(auto, unfolding(paper_entries::specs::Paper::Checks::first_refusal))]
pub fn pair_checks(jobs: usize, a: i32, b: i32) -> Result<(), Refusal>
    ensures { refusal_of result ≡ first_refusal (pair_checks jobs a b) }
{
    job_check(jobs, a)?;
    job_check(jobs, b)?;
    refuse_if(a == b, Refusal::Same)
}

// "a budget, 0 to 1000000"
const BUDGET: i32 = 1000000;

// 9 budget
pub fn budget_check(budget: i32) -> Result<(), Refusal>
    ensures { refusal_of result ≡ first_refusal (budget_check budget ∷ []) }
{
    refuse_if(!between(0, BUDGET, budget), Refusal::Budget)
}
