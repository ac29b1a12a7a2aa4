// "the two manners may be mixed": one sequence of calls on two boards, each altered by value and in place by turns, the one where
// the other is not. Each answer, and each row at the end, is written for the first board and then for the second.
#![tactic(auto)]

use crate::play::{Boards, Manner, play};
use call_dock::Dock;
use paper_board::Board;
use paper_entries::Entry;
use std::io;

mod in_place;
mod play;

// Accepted and refused entries of every sort, with the jobs of the paper's whole case.
fn sequence(rt: &impl Print, boards: Boards) -> io::Result<Boards> {
    let b = play(rt, boards, Entry::addition(30, 0, 100, 1))?;
    let b = play(rt, b, Entry::addition(40, 0, 100, 0))?;
    let b = play(rt, b, Entry::addition(20, 10, 60, 1))?;
    let b = play(rt, b, Entry::addition(0, 0, 100, 1))?;
    let b = play(rt, b, Entry::arc(0, 2))?;
    let b = play(rt, b, Entry::arc(0, 3))?;
    let b = play(rt, b, Entry::arc(1, 1))?;
    let b = play(rt, b, Entry::cut(0, -10, 90))?;
    let b = play(rt, b, Entry::cut(0, 90, -10))?;
    let b = play(rt, b, Entry::cut(1, 0, 85))?;
    let b = play(rt, b, Entry::mark(1, 1))?;
    let b = play(rt, b, Entry::mark(1, 0))?;
    let b = play(rt, b, Entry::mark(0, 2))?;
    play(rt, b, Entry::addition(10, -500000, 500000, 0))
}

fn row(rt: &impl Print, board: Board, job: u16) -> io::Result<()> {
    test_writing::row(rt, job as i32, Dock { board }.row(job as i32))
}

fn rows(rt: &impl Print, boards: Boards) -> io::Result<()> {
    let first = boards.first;
    let second = boards.second;
    for job in 0..4 {
        row(rt, first, job)?;
        row(rt, second, job)?;
    }
    Ok(())
}

fn main(rt: HostRuntime) -> io::Result<()> {
    let empty = Board::empty();
    let boards = sequence(
        &rt,
        Boards {
            first: empty,
            second: empty,
            manner: Manner::InPlace,
        },
    )?;
    rows(&rt, boards)?;
    test_writing::tally(&rt, boards.first.books.tally)?;
    test_writing::tally(&rt, boards.second.books.tally)
}
