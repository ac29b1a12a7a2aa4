// "The text": a text answered from bytes to bytes, a page at a time.
#![tactic(auto)]

ghost use Rattle.std.specs.Prelude.{◌≡◌, true, ◌≤◌};
ghost use Rattle.text_decimals.specs.Written.{text_of, capacity_of, SameBuffer};
ghost use Rattle.paper_closure.specs.Passes.{passes};
ghost use Rattle.text_replies.specs.Room.{answer_room};
ghost use Rattle.text_forms.specs.Paper.Lines.{lines_of};
ghost use Rattle.text_answers.specs.Paper.Text as paper;
ghost use Rattle.text_pieces.specs.Continues.{Answers};

use paper_board::{Board, Refusal};
use text_answers::carry_out;
use text_decimals::Page;
use text_forms::line::line_end;
use text_forms::read;
use text_replies::{ANSWER_ROOM, put_refusal};

// The most bytes that a text may have.
pub const LOAD: usize = 65536;

// How far a text was answered: the board after it, and how many of its bytes were read.
#[derive(Clone, Copy)]
pub struct Piece {
    pub board: Board,
    pub read: usize,
}

// Writes the answers to as many lines as the page has room for, at least one. Each line is read from where the last one ended.
pub fn next(board: Board, text: &[u8], page: &mut Page<'_>) -> Piece
    requires passes { passes board ≡ true }
    requires room { answer_room ≤ capacity_of page.old }
    ensures answers { Answers (paper.serve board (lines_of text.now)) text.now (text_of page.new) result }
    ensures capacity { capacity_of page.new ≡ capacity_of page.old }
    ensures same_buffer { SameBuffer page.old page.new }
{
    page.clear();
    let mut board = board;
    let mut rest = text;
    while !rest.is_empty() && ANSWER_ROOM <= page.room() {
        let Some(end) = line_end(rest) else {
            put_refusal(page, Refusal::Form);
            return Piece {
                board,
                read: text.len(),
            };
        };
        board = carry_out(board, read(&rest[..end]), page);
        rest = &rest[end + 1..];
    }
    Piece {
        board,
        read: text.len() - rest.len(),
    }
}

// The first piece of a text, from an empty board.
pub fn start(text: &[u8], page: &mut Page<'_>) -> Piece
    requires { answer_room ≤ capacity_of page.old }
    ensures answers { Answers (paper.serve_text text.now) text.now (text_of page.new) result }
    ensures capacity { capacity_of page.new ≡ capacity_of page.old }
    ensures same_buffer { SameBuffer page.old page.new }
{
    if LOAD < text.len() {
        page.clear();
        put_refusal(page, Refusal::Load);
        return Piece {
            board: Board::empty(),
            read: text.len(),
        };
    }
    next(Board::empty(), text, page)
}
