// The answer to a form, and the board after it.
#![tactic(auto)]

ghost use Rattle.std.specs.Prelude.{◌≡◌, true};
ghost use Rattle.text_decimals.specs.Written.{HasRoom, Written};
ghost use Rattle.paper_closure.specs.Passes.{passes};
ghost use Rattle.text_replies.specs.Room.{answer_room};
ghost use Rattle.text_answers.specs.Paper.Text as paper;

use call_enter::enter;
use call_pairs::pair;
use call_planner::plan;
use call_rows::row;
use paper_board::{Board, Refusal};
use paper_entries::Entered;
use text_decimals::Page;
use text_forms::Form;
use text_plans::put_plan;
use text_replies::{put_answer, put_pair, put_refusal, put_row, put_tally};

fn entered(entered: Entered, page: &mut Page<'_>) -> Board
    requires { HasRoom page.old answer_room }
    ensures written { Written page.old page.new (paper.reply_text (paper.entered entered).reply) answer_room }
    ensures board_value { result ≡ (paper.entered entered).board }
{
    put_answer(page, entered.answer);
    entered.board
}

// Writes the answer to a line that is this form, or none; the board after it.
#[tactic(auto, unfolding(crate::specs::Paper::Text::carried_out))]
pub fn carry_out(board: Board, form: Option<Form>, page: &mut Page<'_>) -> Board
    requires passes { passes board ≡ true }
    requires room { HasRoom page.old answer_room }
    ensures written { Written page.old page.new (paper.reply_text (paper.carried_out board form).reply) answer_room }
    ensures board_value { result ≡ (paper.carried_out board form).board }
{
    match form {
        Some(Form::Entry(entry)) => return entered(enter(board, entry), page),
        Some(Form::Row { job }) => put_row(page, job, row(board, job)),
        Some(Form::Pair { a, b }) => put_pair(page, pair(board, a, b)),
        Some(Form::Plan { budget }) => put_plan(page, plan(board, budget)),
        Some(Form::Tally) => put_tally(page, board.books.tally),
        None => put_refusal(page, Refusal::Form),
    }
    board
}
