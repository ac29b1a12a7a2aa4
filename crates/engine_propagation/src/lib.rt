// Propagation: each rule applied where something may have changed, and from there on as far as it leads. It is sound and need not be
// complete: it leaves the search little to find.
#![tactic(auto)]

ghost use Rattle.paper_board.specs.Paper.Values.{side_of};
ghost use Rattle.engine_sums.specs.Sums.{Times, Lengths};
ghost use Rattle.engine_detection.specs.Detection.{WindowsInRange};
ghost use Rattle.engine_precedence.specs.Precedence.{Raises, PrecedenceRead, Shuts};
ghost use Rattle.engine_propagation.specs.Turns.{BoardOnward, BoardShut, TablesAlone};

use engine_agenda::Agenda;
use engine_detection::detect_arcs;
use engine_exclusion::{excluded, unfit};
use engine_frontier::frontier;
use engine_marks::Marks;
use engine_neighbours::{Arcs, Neighbours};
use engine_order::Order;
use engine_precedence::push;
use engine_sides::Sides;
use engine_sums::bounds::Windows;
use engine_transitivity::join_arcs;
use paper_board::Board;
use paper_board::facts::Side;

// How many turns there are at the most. What they leave the search finds.
const TURNS: usize = 65536;

// What is left to do after a turn, and the jobs found that can't stay.
#[derive(Clone, Copy)]
pub struct Turned {
    pub left: Agenda,
    pub stuck: u64,
}

// R2 and R1 at new arcs. R2 comes first: on a cycle of valid jobs the windows would move on and on.
fn turn_arcs(board: &mut Board, marks: Marks, left: Agenda) -> Turned
    requires { WindowsInRange board.old }
    ensures hours { WindowsInRange board.new }
    ensures onward { BoardOnward marks.live marks.valid board.old board.new }
    ensures kept { TablesAlone board.old board.new }
    ensures shut { BoardShut marks.live marks.valid board.old result.stuck }
{
    if left.crossed != 0 {
        let set = ground_sets::intersection(left.crossed, marks.valid);
        let arcs = Arcs {
            before: &board.before,
            after: &board.after,
        };
        return Turned {
            left: left.checked(),
            stuck: excluded(set, arcs),
        };
    }
    let through = ground_sets::intersection(left.through, marks.valid);
    let found = join_arcs(board, through, marks.live);
    Turned {
        left: left.joined(found),
        stuck: 0,
    }
}

// R6 and R3 at the jobs whose windows have moved.
fn turn_order(board: &mut Board, marks: Marks, left: Agenda) -> Turned
    requires { WindowsInRange board.old }
    ensures hours { WindowsInRange board.new }
    ensures onward { BoardOnward marks.live marks.valid board.old board.new }
    ensures kept { TablesAlone board.old board.new }
    ensures shut { BoardShut marks.live marks.valid board.old result.stuck }
{
    let windows = Windows {
        earliest: &board.earliest,
        latest: &board.latest,
        lengths: &board.lengths,
    };
    let moved = ground_sets::intersection(left.moved.either(), marks.live);
    let stuck = unfit(moved, windows);
    if stuck != 0 {
        return Turned { left, stuck };
    }
    let side = left.moved_side();
    let found = detect_arcs(board, side, *left.moved.on(side), marks);
    Turned {
        left: left.detected(side, found),
        stuck: 0,
    }
}

// R4 or R5 on one side, at those of the jobs to move next that come first in topological order. The side's times are altered while the
// other side's are read: so they aren't one `Windows`.
fn turn_side(
    side: Side,
    times: &mut [i32; Board::JOBS],
    fixed: &[i32; Board::JOBS],
    lengths: &[i32; Board::JOBS],
    neighbours: Neighbours<'_>,
    valid: u64,
    order: &mut Order,
    left: Agenda,
) -> Turned
    requires { Times times.old × Times fixed.now × Lengths lengths.now }
    ensures times { Times times.new }
    ensures raises { Raises (side_of side) (PrecedenceRead (side_of side) fixed.now lengths.now neighbours.entry.beyond.now valid) times.old times.new }
    ensures shuts { Shuts (side_of side) (PrecedenceRead (side_of side) fixed.now lengths.now neighbours.entry.beyond.now valid) times.old result.stuck }
{
    let set = frontier(left.due_on(side), valid, neighbours);
    let step = push(side, set, times, fixed, lengths, neighbours, valid, order);
    Turned {
        left: left.pushed(side, set, step),
        stuck: step.stuck,
    }
}

// R4 or R5, on the side on which jobs are to move next.
fn turn_windows(board: &mut Board, marks: Marks, orders: &mut Sides<Order>, left: Agenda) -> Turned
    requires { WindowsInRange board.old }
    ensures hours { WindowsInRange board.new }
    ensures onward { BoardOnward marks.live marks.valid board.old board.new }
    ensures kept { TablesAlone board.old board.new }
    ensures shut { BoardShut marks.live marks.valid board.old result.stuck }
{
    let side = left.next_side();
    let order = orders.on_mut(side);
    let arcs = Arcs {
        before: &board.before,
        after: &board.after,
    };
    match side {
        Side::Early => turn_side(
            Side::Early,
            &mut board.earliest,
            &board.latest,
            &board.lengths,
            arcs.on(Side::Early),
            marks.valid,
            order,
            left,
        ),
        Side::Late => turn_side(
            Side::Late,
            &mut board.latest,
            &board.earliest,
            &board.lengths,
            arcs.on(Side::Late),
            marks.valid,
            order,
            left,
        ),
    }
}

// One turn, of what is to be done first: the arcs before the windows, since the windows move along them, and a job's arcs as soon as it
// has moved, before it moves others.
fn turn(board: &mut Board, marks: Marks, orders: &mut Sides<Order>, left: Agenda) -> Turned
    requires { WindowsInRange board.old }
    ensures hours { WindowsInRange board.new }
    ensures onward { BoardOnward marks.live marks.valid board.old board.new }
    ensures kept { TablesAlone board.old board.new }
    ensures shut { BoardShut marks.live marks.valid board.old result.stuck }
{
    if ground_sets::union(left.crossed, left.through) != 0 {
        return turn_arcs(board, marks, left);
    }
    if left.moved.either() != 0 {
        return turn_order(board, marks, left);
    }
    turn_windows(board, marks, orders, left)
}

// Turn after turn, until nothing is left to do, or a valid job can't stay: then there is no board. Gives the jobs that can't stay, since they no
// longer fit their windows or have arcs both ways to a valid job; nothing more is asked of them.
pub fn propagate(board: &mut Board, marks: Marks, due: Agenda) -> u64
    requires { WindowsInRange board.old }
    ensures onward { BoardOnward marks.live marks.valid board.old board.new }
    ensures kept { TablesAlone board.old board.new }
    ensures shut { BoardShut marks.live marks.valid board.old result }
{
    let mut left = due;
    let mut rest = marks.live;
    let mut stuck = 0;
    let mut orders = Sides {
        early: Order::unknown(),
        late: Order::unknown(),
    };
    for _ in 0..TURNS {
        if left.is_done() || ground_sets::intersection(stuck, marks.valid) != 0 {
            break;
        }
        let next = turn(
            board,
            Marks {
                live: rest,
                ..marks
            },
            &mut orders,
            left,
        );
        stuck = ground_sets::union(stuck, next.stuck);
        rest = ground_sets::difference(rest, next.stuck);
        left = next.left.among(rest);
    }
    stuck
}
