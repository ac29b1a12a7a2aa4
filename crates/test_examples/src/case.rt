// The paper's whole case, and plans that the tries find, fail to find or have no budget for.
use crate::call;
use paper_board::Board;
use std::io;

pub fn whole(rt: &impl Print) -> io::Result<()> {
    test_writing::text(rt, b"case\n")?;
    let b = call::addition(rt, Board::empty(), 30, 0, 100, 1)?;
    let b = call::addition(rt, b, 40, 0, 100, 0)?;
    let b = call::addition(rt, b, 20, 10, 60, 1)?;
    let b = call::arc(rt, b, 0, 2)?;
    call::row(rt, b, 1)?;
    call::pair(rt, b, 2, 1)?;
    call::plan(rt, b, 100)?;
    let b = call::cut(rt, b, 1, 0, 85)?;
    call::row(rt, b, 1)?;
    let b = call::mark(rt, b, 1, 1)?;
    test_writing::tally(rt, b.books.tally)
}

// Three jobs of 10 minutes in 25: the board accepts each, and the tries find no plan. With 30 minutes for one they do.
pub fn plans(rt: &impl Print) -> io::Result<()> {
    test_writing::text(rt, b"plans\n")?;
    call::plan(rt, Board::empty(), 0)?;
    let b = call::addition(rt, Board::empty(), 10, 0, 25, 1)?;
    let b = call::addition(rt, b, 10, 0, 25, 1)?;
    let c = call::addition(rt, b, 10, 0, 25, 1)?;
    call::plan(rt, c, 15)?;
    call::plan(rt, c, 14)?;
    call::plan(rt, c, -1)?;
    call::plan(rt, c, 1000001)?;
    let c = call::addition(rt, b, 10, 0, 30, 1)?;
    call::plan(rt, c, 1000000)
}
