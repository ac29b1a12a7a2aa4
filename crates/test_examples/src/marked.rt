// The twelve marked examples of the paper.
use crate::call;
use paper_board::Board;
use std::io;

const UNDECIDED: i32 = 0;

const VALID: i32 = 1;

// M1 to M4: lengths at their limits, and a job that does not fit its window.
pub fn lengths(rt: &impl Print) -> io::Result<()> {
    test_writing::text(rt, b"M1\n")?;
    call::addition(rt, Board::empty(), 0, 0, 100, VALID)?;
    test_writing::text(rt, b"M2\n")?;
    call::addition(rt, Board::empty(), 10000, 0, 10000, VALID)?;
    test_writing::text(rt, b"M3\n")?;
    let b = call::addition(rt, Board::empty(), 10000, 0, 9999, UNDECIDED)?;
    call::row(rt, b, 0)?;
    test_writing::text(rt, b"M4\n")?;
    call::addition(rt, Board::empty(), 10000, 0, 9999, VALID)?;
    Ok(())
}

// Two jobs, each before a third one of length 5.
fn two_before(
    rt: &impl Print,
    length: i32,
    second: i32,
    earliest: i32,
    mark: i32,
) -> io::Result<()> {
    let b = call::addition(rt, Board::empty(), length, 0, 100, VALID)?;
    let b = call::addition(rt, b, second, earliest, 100, mark)?;
    let b = call::addition(rt, b, 5, 0, 100, VALID)?;
    let b = call::arc(rt, b, 0, 2)?;
    let b = call::arc(rt, b, 1, 2)?;
    call::row(rt, b, 2)
}

// M5 to M7: the energy of all the jobs before, of some of them, and of the valid ones alone.
pub fn energy(rt: &impl Print) -> io::Result<()> {
    test_writing::text(rt, b"M5\n")?;
    two_before(rt, 10, 20, 0, VALID)?;
    test_writing::text(rt, b"M6\n")?;
    two_before(rt, 5, 10, 50, VALID)?;
    test_writing::text(rt, b"M7\n")?;
    two_before(rt, 5, 10, 50, UNDECIDED)
}

// M8 and M9: 60 against 60, and against 59.
pub fn orders(rt: &impl Print) -> io::Result<()> {
    test_writing::text(rt, b"M8\n")?;
    let b = call::addition(rt, Board::empty(), 40, 0, 100, VALID)?;
    call::pair(rt, call::addition(rt, b, 20, 10, 60, VALID)?, 0, 1)?;
    test_writing::text(rt, b"M9\n")?;
    let b = call::addition(rt, Board::empty(), 40, 0, 100, VALID)?;
    call::pair(rt, call::addition(rt, b, 20, 10, 59, VALID)?, 0, 1)
}

// M10 and M11: arcs through an undecided job, which is then marked valid.
pub fn joins(rt: &impl Print) -> io::Result<()> {
    test_writing::text(rt, b"M10\n")?;
    let b = call::addition(rt, Board::empty(), 5, 0, 100, VALID)?;
    let b = call::addition(rt, b, 5, 0, 100, UNDECIDED)?;
    let b = call::addition(rt, b, 5, 0, 100, VALID)?;
    let b = call::arc(rt, b, 0, 1)?;
    let b = call::arc(rt, b, 1, 2)?;
    call::pair(rt, b, 0, 2)?;
    test_writing::text(rt, b"M11\n")?;
    let b = call::mark(rt, b, 1, 1)?;
    call::pair(rt, b, 0, 2)
}

// M12: two undecided jobs that exclude each other.
pub fn exclusion(rt: &impl Print) -> io::Result<()> {
    test_writing::text(rt, b"M12\n")?;
    let b = call::addition(rt, Board::empty(), 5, 0, 100, UNDECIDED)?;
    let b = call::addition(rt, b, 5, 0, 100, UNDECIDED)?;
    let b = call::arc(rt, b, 0, 1)?;
    let b = call::arc(rt, b, 1, 0)?;
    call::pair(rt, b, 0, 1)?;
    let b = call::mark(rt, b, 0, 1)?;
    call::row(rt, b, 1)
}
