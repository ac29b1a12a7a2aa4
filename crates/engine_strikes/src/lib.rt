// Jobs struck out: what makes them invalid, all of a set at once.
#![tactic(auto)]

ghost use Rattle.std.specs.Prelude.{◌≡◌, ◌<◌, ◌≤◌};
ghost use Rattle.paper_board.specs.Paper.Limits.{job_limit, Within};
ghost use Rattle.paper_rules.specs.Update.Updates as updates;
ghost use Rattle.paper_rules.specs.Update.Strike as struck;
ghost use Rattle.paper_rules.specs.Update.Alone.{ArraysAlone};
ghost use Rattle.paper_rules.specs.Update.Possibly.{possibly};

use paper_board::Board;

// What becomes of job k where a set is struck out: it loses all it has where it is of the set, else its arcs to the set's jobs.
fn strike_at(board: &mut Board, set: u64, k: usize)
    requires { k < job_limit }
    ensures { board.new ≡ struck.strike_at board.old set k }
{
    if ground_sets::has(set, k) {
        board.lengths[k] = 0;
        board.earliest[k] = 0;
        board.latest[k] = 0;
        board.marks[k] = Board::INVALID;
        board.after[k] = 0;
        board.before[k] = 0;
        return;
    }
    board.after[k] = ground_sets::difference(board.after[k], set);
    board.before[k] = ground_sets::difference(board.before[k], set);
}

// "An invalid job holds length 0, E 0, D 0 and no arcs": all jobs of a set become invalid at once. By number, since a step alters a place of six
// arrays.
#[tactic(auto, using(paper_rules::specs::Update::Strike::striking))]
pub fn strike(board: &mut Board, set: u64)
    requires { board.old.jobs ≤ job_limit }
    ensures { board.new ≡ struck.strike board.old set }
{
    for k in 0..board.jobs {
        strike_at(board, set, k);
    }
}

// "makes an undecided job invalid and a valid one a contradiction"
#[tactic(auto, using(paper_rules::specs::Update::Excluded::excluding), unfolding(paper_rules::specs::Update::Strike::strike_below))]
pub fn exclude(board: &mut Board, job: usize) -> Option<()>
    requires { (board.old.jobs ≤ job_limit) × (job < board.old.jobs) }
    ensures kept { ArraysAlone board.old board.new }
    ensures excluded { Within board.old → updates.exclude board.old job ≡ possibly result board.new }
{
    let mark = board.marks[job];
    if mark == Board::VALID {
        return None;
    }
    if mark == Board::INVALID {
        return Some(());
    }
    strike(board, ground_sets::with(0, job));
    Some(())
}
