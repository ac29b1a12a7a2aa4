// A call whose answer is written, and the board after it.
use call_dock::Dock;
use paper_board::Board;
use paper_entries::Entered;
use paper_plans::Planned;
use std::io;

fn answered(rt: &impl Print, entered: Entered) -> io::Result<Board> {
    let answer = entered.answer;
    test_writing::answer(rt, answer)?;
    Ok(entered.board)
}

pub fn addition(
    rt: &impl Print,
    board: Board,
    length: i32,
    earliest: i32,
    latest: i32,
    mark: i32,
) -> io::Result<Board> {
    answered(rt, Dock { board }.addition(length, earliest, latest, mark))
}

pub fn arc(rt: &impl Print, board: Board, from: i32, to: i32) -> io::Result<Board> {
    answered(rt, Dock { board }.arc(from, to))
}

pub fn mark(rt: &impl Print, board: Board, job: i32, mark: i32) -> io::Result<Board> {
    answered(rt, Dock { board }.mark(job, mark))
}

pub fn cut(
    rt: &impl Print,
    board: Board,
    job: i32,
    earliest: i32,
    latest: i32,
) -> io::Result<Board> {
    answered(rt, Dock { board }.cut(job, earliest, latest))
}

pub fn row(rt: &impl Print, board: Board, job: u16) -> io::Result<()> {
    test_writing::row(rt, job as i32, Dock { board }.row(job as i32))
}

pub fn pair(rt: &impl Print, board: Board, a: i32, b: i32) -> io::Result<()> {
    test_writing::pair(rt, Dock { board }.pair(a, b))
}

pub fn plan(rt: &impl Print, board: Board, budget: i32) -> io::Result<()> {
    let planned: Planned = Dock { board }.plan(budget);
    test_writing::plan(rt, planned)
}
