// A text from a reader, answered to a writer.
#![tactic(auto)]

ghost use Rattle.std.specs.Prelude.{◌≤◌, length, IfOk, OnOk};
ghost use Rattle.std.specs.Io.KnownBytes.{Appends};
ghost use Rattle.text_answers.specs.Paper.Text.{output};
ghost use Rattle.text_answers.specs.Paper.Text as paper;
ghost use Rattle.text_pieces.specs.Pieces.{Whole};

use paper_board::Board;
use std::io::{self, Read, Write};
use text_decimals::Page;

// One byte more than a text may have, so that a longer one shows.
const ROOM: usize = text_pieces::LOAD + 1;

// Reads until the buffer is full or the input ends, in pieces as small as they come: how many bytes. The library's methods read to the end into
// memory of their own, or fill the buffer or fail.
fn read_all<R: Read>(reader: &mut R, buffer: &mut [u8]) -> io::Result<usize>
    ensures { IfOk result (λ count. count ≤ length buffer.new) }
{
    let mut count = 0;
    while count < buffer.len() {
        let more = reader.read(&mut buffer[count..])?;
        if more == 0 {
            break;
        }
        count += more;
    }
    Ok(count)
}

// Answers a text, in pieces as large as the page: the board after it, pieces that are the whole output, and that a writer that tells what it
// holds was given that output. Of standard output no contract can say which bytes it took, so that the next piece is on the page at each
// write is also the loop's invariant (`Buffered`).
pub fn serve_text<W: Write>(writer: &mut W, bytes: &[u8]) -> io::Result<Board>
    ensures whole { IfOk result (λ board. Whole bytes.now board) }
    ensures written { OnOk result (Appends (W.contents writer.old) (W.contents writer.new) (output (paper.serve_text bytes.now).replies)) }
{
    let mut buffer = [0u8; 65536];
    let mut page = Page::new(&mut buffer);
    let mut piece = text_pieces::start(bytes, &mut page);
    let mut rest = &bytes[piece.read..];
    loop {
        writer.write_all(page.text())?;
        if rest.is_empty() {
            return Ok(piece.board);
        }
        piece = text_pieces::next(piece.board, rest, &mut page);
        rest = &rest[piece.read..];
    }
}

// Reads a text, answers it, and says on standard error what failed, if anything.
pub fn run<R: Read>(rt: &(impl Print + Eprint), reader: &mut R) {
    let mut buffer = [0u8; ROOM];
    let Ok(length) = read_all(reader, &mut buffer) else {
        let _ = eprintln!(rt; "the text could not be read");
        return;
    };
    if serve_text(&mut io::writer(rt), &buffer[..length]).is_err() {
        let _ = eprintln!(rt; "the answers could not be written");
    }
}
