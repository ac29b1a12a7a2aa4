// Answers in the paper's text, on standard output.
#![tactic(auto)]

ghost use Rattle.text_decimals.specs.Written.{HasRoom};
ghost use Rattle.text_replies.specs.Room.{answer_room};

use paper_entries::{Answer, PairAnswer, RowAnswer};
use paper_plans::Planned;
use std::io;
use text_decimals::Page;
use text_plans::put_plan;
use text_replies::{ANSWER_ROOM, put_answer, put_pair, put_row, put_tally};

pub fn text(rt: &impl Print, bytes: &[u8]) -> io::Result<()> {
    rt.write_all(bytes)
}

// What is put on a page with room for an answer.
fn written<F: FnOnce(&mut Page<'_>)>(rt: &impl Print, put: F) -> io::Result<()>
    requires { (page : _) → HasRoom page.now answer_room → F.pre put page }
{
    let mut buffer = [0u8; ANSWER_ROOM];
    let mut page = Page::new(&mut buffer);
    put(&mut page);
    text(rt, page.text())
}

pub fn answer(rt: &impl Print, answer: Answer) -> io::Result<()> {
    written(rt, |page| put_answer(page, answer))
}

pub fn row(rt: &impl Print, job: i32, row: RowAnswer) -> io::Result<()> {
    written(rt, |page| put_row(page, job, row))
}

pub fn pair(rt: &impl Print, pair: PairAnswer) -> io::Result<()> {
    written(rt, |page| put_pair(page, pair))
}

pub fn plan(rt: &impl Print, planned: Planned) -> io::Result<()> {
    written(rt, |page| put_plan(page, planned))
}

pub fn tally(rt: &impl Print, tally: u32) -> io::Result<()> {
    written(rt, |page| put_tally(page, tally))
}
