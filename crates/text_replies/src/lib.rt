// "Each line gives one line": the answers as text but for the planner's, each written on a page.
#![tactic(auto)]

ghost use Rattle.text_decimals.specs.Written.{HasRoom, Written};
ghost use Rattle.paper_board.specs.Paper.Refusals.{number_of};
ghost use Rattle.paper_entries.specs.Paper.Replies.{reply_of, row_reply_of, pair_reply_of};
ghost use Rattle.text_replies.specs.Paper.ReplyTexts.{refusal_text, entry_text, row_text, pair_text, tally_text};
ghost use Rattle.text_replies.specs.Room.{answer_room};

use paper_board::Refusal;
use paper_entries::{Answer, PairAnswer, RowAnswer};
use text_decimals::Page;
use text_formats::print;

// Room for any answer: the longest is a plan of all jobs.
pub const ANSWER_ROOM: usize = 2304;

// "`(no R)` with refusal R"
pub fn put_refusal(page: &mut Page<'_>, refusal: Refusal)
    requires { HasRoom page.old answer_room }
    ensures { Written page.old page.new (refusal_text (number_of refusal)) answer_room }
{
    print(page, b"(no @)\n", &[refusal.number().into()], &[]);
}

// "`(ok K)` for an addition, K its number; `(ok)`"
pub fn put_answer(page: &mut Page<'_>, answer: Answer)
    requires { HasRoom page.old answer_room }
    ensures { Written page.old page.new (entry_text (reply_of answer)) answer_room }
{
    match answer {
        Ok(Some(job)) => print(page, b"(ok @)\n", &[job as u64], &[]),
        Ok(None) => print(page, b"(ok)\n", &[], &[]),
        Err(refusal) => put_refusal(page, refusal),
    }
}

// "`row` prints job, mark, E, D and the two sets in decimal."
pub fn put_row(page: &mut Page<'_>, job: i32, row: RowAnswer)
    requires { HasRoom page.old answer_room }
    ensures { Written page.old page.new (row_text job (row_reply_of row)) answer_room }
{
    match row {
        Ok(row) => print(
            page,
            b"(row # @ # # (before @) (after @))\n",
            &[row.mark.into(), row.before, row.after],
            &[job, row.earliest, row.latest],
        ),
        Err(refusal) => put_refusal(page, refusal),
    }
}

// "`two` prints pair and gap."
pub fn put_pair(page: &mut Page<'_>, pair: PairAnswer)
    requires { HasRoom page.old answer_room }
    ensures { Written page.old page.new (pair_text (pair_reply_of pair)) answer_room }
{
    match pair {
        Ok(pair) => print(page, b"(two @ #)\n", &[pair.arcs.into()], &[pair.gap]),
        Err(refusal) => put_refusal(page, refusal),
    }
}

// "`tally` prints the tally."
pub fn put_tally(page: &mut Page<'_>, tally: u32)
    requires { HasRoom page.old answer_room }
    ensures { Written page.old page.new (tally_text tally) answer_room }
{
    print(page, b"(tally @)\n", &[tally.into()], &[]);
}
