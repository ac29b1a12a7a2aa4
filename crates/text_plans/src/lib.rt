// The answer of `plan` as text, written on a page.
#![tactic(auto)]

ghost use Rattle.std.specs.Prelude.{◌<◌};
ghost use Rattle.ground_sets.specs.Bit.{bit};
ghost use Rattle.text_decimals.specs.Written.{HasRoom, Written};
ghost use Rattle.paper_board.specs.Paper.Limits.{job_limit};
ghost use Rattle.paper_plans.specs.Paper.PlanReply.{plan_found, placing_of, plan_reply_of};
ghost use Rattle.paper_plans.specs.Paper.Lists.{range};
ghost use Rattle.text_replies.specs.Paper.ReplyTexts.{placement_text, placements_text, plan_text};
ghost use Rattle.text_replies.specs.Room.{answer_room, placement_room, placements_room};

use paper_plans::{Planned, TriesEnd};
use text_decimals::Page;
use text_formats::print;
use text_replies::put_refusal;

fn put_placement(page: &mut Page<'_>, placed: u64, job: usize, start: i32)
    requires job_within { job < job_limit }
    requires room { HasRoom page.old placement_room }
    ensures { Written page.old page.new (placement_text (bit placed job) job start) placement_room }
{
    if ground_sets::has(placed, job) {
        print(page, b" (@ #)", &[job as u64], &[start]);
    }
}

// "(job start) in job order"
fn put_placements(page: &mut Page<'_>, planned: &Planned)
    requires { HasRoom page.old placements_room }
    ensures { Written page.old page.new (placements_text (placing_of planned.now) (range 0 job_limit)) placements_room }
{
    for (job, start) in planned.starts.iter().enumerate() {
        put_placement(page, planned.placed, job, *start);
    }
}

fn put_found(page: &mut Page<'_>, tries: u32, planned: &Planned)
    requires { HasRoom page.old answer_room }
    ensures { Written page.old page.new (plan_text (plan_found tries (placing_of planned.now))) answer_room }
{
    print(page, b"(plan @ (found", &[tries.into()], &[]);
    put_placements(page, planned);
    print(page, b"))\n", &[], &[]);
}

// "`plan` prints T (the budget where spent), then `(found ..)` [..], `(none)` or `(spent)`."
pub fn put_plan(page: &mut Page<'_>, planned: Planned)
    requires { HasRoom page.old answer_room }
    ensures { Written page.old page.new (plan_text (plan_reply_of planned)) answer_room }
{
    match planned.answer {
        Ok(TriesEnd::Found(tries)) => put_found(page, tries, &planned),
        Ok(TriesEnd::None(tries)) => print(page, b"(plan @ (none))\n", &[tries.into()], &[]),
        Ok(TriesEnd::Spent(budget)) => print(page, b"(plan @ (spent))\n", &[budget.into()], &[]),
        Err(refusal) => put_refusal(page, refusal),
    }
}
