// What a buffer holds that was lent to a page, once the page is over: a number, and the first answers to a text.
#![tactic(auto)]

ghost use Rattle.std.specs.Prelude.{◌≡◌, ◌≤◌, length, take};
ghost use Rattle.text_replies.specs.Room.{answer_room};
ghost use Rattle.text_answers.specs.Paper.Text as paper;
ghost use Rattle.text_pieces.specs.Continues.{Answers};

use std::io;
use test_writing::text;
use text_decimals::{Page, put_number};
use text_pieces::Piece;
use text_replies::ANSWER_ROOM;

// The first piece, at the start of the buffer, and how many bytes it has.
fn start(text: &[u8], buffer: &mut [u8]) -> (Piece, usize)
    requires { answer_room ≤ length buffer.old }
    ensures answers { Answers (paper.serve_text text.now) text.now (take result.1 buffer.new) result.0 }
    ensures within { result.1 ≤ length buffer.new }
    ensures capacity { length buffer.new ≡ length buffer.old }
{
    let mut page = Page::new(buffer);
    let piece = text_pieces::start(text, &mut page);
    (piece, page.finish())
}

fn main(rt: HostRuntime) -> io::Result<()> {
    let mut buffer = [0u8; 2 * ANSWER_ROOM];
    for z in [0, i32::MAX, i32::MIN] {
        let end = put_number(&mut buffer, z);
        text(&rt, &buffer[..end])?;
        text(&rt, b"\n")?;
    }
    let (_, end) = start(
        b"(add (len 45) (win 360 480) (mark 1))\n(tally)\n",
        &mut buffer,
    );
    text(&rt, &buffer[..end])
}
