// The answers as structs of numbers, since an enum with values can't be exported to C: the flags and numbers in place of an enum are what C sees.
#![tactic(auto)]

ghost use Rattle.std.specs.Prelude.{◌≡◌};
ghost use Rattle.call_reply_numbers.specs.ReplyNumbers as said;

use paper_board::Board;
use paper_entries::{Answer, PairAnswer, RowAnswer};
use paper_plans::{Planned, TriesEnd};

// To an entry. Accepted: the number of the job added, or 0 where nothing was added. Otherwise the refusal's number.
#[repr(C)]
#[derive(Clone, Copy)]
pub struct ReplyNumbers {
    pub accepted: bool,
    pub number: u64,
}

// To a row: where it is not accepted, the refusal's number, and 0 in the rest.
#[repr(C)]
#[derive(Clone, Copy, Default)]
pub struct RowReplyNumbers {
    pub accepted: bool,
    pub refusal: u32,
    pub mark: u8,
    pub earliest: i32,
    pub latest: i32,
    pub before: u64,
    pub after: u64,
}

// To a pair: where it is not accepted, the refusal's number, and 0 in the rest.
#[repr(C)]
#[derive(Clone, Copy, Default)]
pub struct PairReplyNumbers {
    pub accepted: bool,
    pub refusal: u32,
    pub arcs: u8,
    pub gap: i32,
}

// To a plan: found (0), none (1) or spent (2) with the number of tries, or refused (3) with the refusal's number. The placed jobs
// are a word, bit k for job k; their starts are in the places of the jobs.
#[repr(C)]
#[derive(Clone, Copy)]
pub struct PlanReplyNumbers {
    pub ending: u8,
    pub number: u32,
    pub placed: u64,
    pub starts: [i32; Board::JOBS],
}

impl From<Answer> for ReplyNumbers {
    ghost from_gives = { λ answer reply. reply ≡ said.reply_numbers answer };

    fn from(answer: Answer) -> Self {
        match answer {
            Ok(added) => Self {
                accepted: true,
                number: added.unwrap_or(0) as u64,
            },
            Err(refusal) => Self {
                accepted: false,
                number: u64::from(refusal.number()),
            },
        }
    }
}

impl From<RowAnswer> for RowReplyNumbers {
    ghost from_gives = { λ row reply. reply ≡ said.row_reply_numbers row };

    fn from(row: RowAnswer) -> Self {
        match row {
            Ok(row) => Self {
                accepted: true,
                refusal: 0,
                mark: row.mark,
                earliest: row.earliest,
                latest: row.latest,
                before: row.before,
                after: row.after,
            },
            Err(refusal) => Self {
                refusal: refusal.number(),
                ..Self::default()
            },
        }
    }
}

impl From<PairAnswer> for PairReplyNumbers {
    ghost from_gives = { λ pair reply. reply ≡ said.pair_reply_numbers pair };

    fn from(pair: PairAnswer) -> Self {
        match pair {
            Ok(pair) => Self {
                accepted: true,
                refusal: 0,
                arcs: pair.arcs,
                gap: pair.gap,
            },
            Err(refusal) => Self {
                refusal: refusal.number(),
                ..Self::default()
            },
        }
    }
}

impl From<Planned> for PlanReplyNumbers {
    ghost from_gives = { λ planned reply. reply ≡ said.plan_reply_numbers planned };

    fn from(planned: Planned) -> Self {
        let starts = planned.starts;
        let (ending, number) = match planned.answer {
            Ok(TriesEnd::Found(tries)) => (0, tries),
            Ok(TriesEnd::None(tries)) => (1, tries),
            Ok(TriesEnd::Spent(budget)) => (2, budget),
            Err(refusal) => (3, refusal.number()),
        };
        Self {
            ending,
            number,
            placed: planned.placed,
            starts,
        }
    }
}
