// The lines that README prints for a program in Rattle (`tests/readme` holds them to these), and what they answer.
#![tactic(auto)]

use call_dock::Dock;
use paper_board::Board;
use paper_entries::Entered;
use paper_plans::Planned;
use std::io;

fn main(rt: HostRuntime) -> io::Result<()> {
    let board = Board::empty();
    let entered: Entered = Dock { board }.addition(45, 360, 480, 1); // length, E, D, mark
    let answer = entered.answer; // Ok(Some(0)): the number of the job
    let board = entered.board; // a field is copied before it goes on
    let row = Dock { board }.row(0); // Ok: mark 1, E 360, D 480, before 0, after 0
    let planned: Planned = Dock { board }.plan(100); // Ok(Found(1)): job 0 at 360
    test_writing::answer(&rt, answer)?;
    test_writing::row(&rt, 0, row)?;
    test_writing::plan(&rt, planned)
}
