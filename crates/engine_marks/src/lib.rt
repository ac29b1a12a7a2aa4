// Sets of jobs by their marks.
#![tactic(auto)]

ghost use Rattle.std.specs.Prelude.{◌≡◌, cond, ◌<◌, ◌≤◌};
ghost use Rattle.ground_sets.specs.Bit.{with};
ghost use Rattle.paper_board.specs.Paper.Limits.{job_limit};
ghost use Rattle.engine_marks.specs.Marked as sets;

use paper_board::Board;

// The set, and job k too where the test holds.
fn with_tested(set: u64, k: usize, test: bool) -> u64
    requires { k < job_limit }
    ensures { result ≡ cond test (with set k) set }
{
    if test { ground_sets::with(set, k) } else { set }
}

// The jobs with the mark.
pub fn marked(board: &Board, mark: u8) -> u64
    requires { board.now.jobs ≤ job_limit }
    ensures { result ≡ sets.marked board.now.jobs board.now.marks mark }
{
    let mut set = 0;
    for (k, &its) in board.marks[..board.jobs].iter().enumerate() {
        set = with_tested(set, k, its == mark);
    }
    set
}

// The live jobs, and among them the valid ones. "Live" means not marked 2.
#[derive(Clone, Copy)]
pub struct Marks {
    pub live: u64,
    pub valid: u64,
}

impl Marks {
    pub fn of(board: &Board) -> Self
        requires { board.now.jobs ≤ job_limit }
        ensures live { result.live ≡ sets.unmarked board.now.jobs board.now.marks 2 }
        ensures valid { result.valid ≡ sets.marked board.now.jobs board.now.marks 1 }
    {
        let mut live = 0;
        let mut valid = 0;
        for (k, &mark) in board.marks[..board.jobs].iter().enumerate() {
            live = with_tested(live, k, mark != Board::INVALID);
            valid = with_tested(valid, k, mark == Board::VALID);
        }
        Self { live, valid }
    }
}
