// One entry on two boards, in opposite manners: by value, where the board goes in and comes back, and in place.
use crate::in_place;
use call_dock::Dock;
use paper_board::Board;
use paper_entries::{Entered, Entry};
use std::io;

#[derive(Clone, Copy)]
pub enum Manner {
    ByValue,
    InPlace,
}

impl Manner {
    fn other(self) -> Self {
        match self {
            Manner::ByValue => Manner::InPlace,
            Manner::InPlace => Manner::ByValue,
        }
    }

    fn enter(self, board: Board, entry: Entry) -> Entered {
        match self {
            Manner::ByValue => Dock { board }.enter(entry),
            Manner::InPlace => in_place::enter(board, entry),
        }
    }
}

// Two boards on which the same entries were made, and the manner in which the first is altered next.
#[derive(Clone, Copy)]
pub struct Boards {
    pub first: Board,
    pub second: Board,
    pub manner: Manner,
}

// Both answers, the first board's first.
pub fn play(rt: &impl Print, boards: Boards, entry: Entry) -> io::Result<Boards> {
    let manner = boards.manner;
    let one = manner.enter(boards.first, entry);
    let other = manner.other().enter(boards.second, entry);
    test_writing::answer(rt, one.answer)?;
    test_writing::answer(rt, other.answer)?;
    let first = one.board;
    let second = other.board;
    Ok(Boards {
        first,
        second,
        manner: manner.other(),
    })
}
