// A bound put on a job's window, on either side.
#![tactic(auto)]

ghost use Rattle.std.specs.Prelude.{◌≡◌, ◌<◌, pos, get_or};
ghost use Rattle.ground_arithmetic.specs.Time.{Moderate};
ghost use Rattle.paper_board.specs.Paper.Limits.{job_limit};
ghost use Rattle.paper_board.specs.Paper.View.{row_of};
ghost use Rattle.paper_board.specs.Paper.Values.{side_of, turned};
ghost use Rattle.paper_rules.specs.Update.Alone.{WindowsAlone};
ghost use Rattle.paper_rules.specs.Update.Shown.{bound_shown};
ghost use Rattle.engine_windows.specs.Windows.{window_of};
ghost use Rattle.engine_bounds.specs.Tightens.{TightensOnAny};

use engine_windows::Window;
use paper_board::Board;
use paper_board::facts::Side;

fn window(board: &Board, job: usize) -> Window
    requires { job < job_limit }
    ensures { result ≡ window_of (row_of board.now job) }
{
    Window {
        earliest: board.earliest[job],
        latest: board.latest[job],
    }
}

// Does a job's window show the bound already, or is the job invalid?
pub fn is_bounded(board: &Board, side: Side, job: usize, time: i32) -> bool
    requires { job < job_limit }
    ensures { result ≡ bound_shown (side_of side) (turned (side_of side) time) (row_of board.now job) }
{
    board.marks[job] == Board::INVALID || !window(board, job).exceeds(side, time)
}

// The bound put on a job's window, where it says something new of a job that may still take place. False where it leaves no
// room for the job (R6): then the window stays. (A bool, since the board is of account either way.)
#[tactic(auto, using(crate::specs::Tightens::tightening))]
pub fn tighten(board: &mut Board, side: Side, job: usize, time: i32) -> bool
    requires { (job < job_limit) × Moderate time × Moderate (get_or board.old.earliest job (pos 0)) × Moderate (get_or board.old.lengths job (pos 0)) }
    ensures kept { WindowsAlone board.old board.new }
    ensures tightens { TightensOnAny (side_of side) job (turned (side_of side) time) board.old result board.new }
{
    if is_bounded(board, side, job, time) {
        return true;
    }
    let smaller = window(board, job).bounded(side, time);
    if !smaller.holds(board.lengths[job]) {
        return false;
    }
    board.earliest[job] = smaller.earliest;
    board.latest[job] = smaller.latest;
    true
}
