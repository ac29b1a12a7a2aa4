// What an entry states, once its checks have let it pass.
#![tactic(auto)]

ghost use Rattle.std.specs.Prelude.{◌≡◌, cond, eqb};
ghost use Rattle.paper_entries.specs.Paper.EntryOf.{entry_of};
ghost use Rattle.call_statements.specs.StatedBy.{ChecksPassed, stated_by};

use call_checks::{index, mark_value};
use paper_board::Board;
use paper_board::facts::{Fact, Side};
use paper_entries::Entry;

// A job's row, or one fact, or two: a cut states a bound on either side. The mark is the number that the board holds and C sees.
#[derive(Clone, Copy)]
pub enum Stated {
    Row {
        length: i32,
        earliest: i32,
        latest: i32,
        mark: u8,
    },
    One(Fact),
    Two(Fact, Fact),
}

// "Mark a job 1 or 2."
fn marking(job: usize, mark: u8) -> Fact
    ensures { result ≡ cond (eqb mark 1) (Fact.Valid job) (Fact.Invalid job) }
{
    if mark == Board::VALID {
        Fact::Valid { job }
    } else {
        Fact::Invalid { job }
    }
}

// "the later E and the earlier D hold"
fn cutting(job: usize, earliest: i32, latest: i32) -> Stated
    ensures { result ≡ Stated.Two (Fact.Bound Side.Early job earliest) (Fact.Bound Side.Late job latest) }
{
    Stated::Two(
        Fact::Bound {
            side: Side::Early,
            job,
            time: earliest,
        },
        Fact::Bound {
            side: Side::Late,
            job,
            time: latest,
        },
    )
}

pub fn stated_by(entry: Entry) -> Stated
    requires { ChecksPassed (entry_of entry) }
    ensures { result ≡ stated_by (entry_of entry) }
{
    match entry {
        Entry::Addition {
            length,
            earliest,
            latest,
            mark,
        } => Stated::Row {
            length,
            earliest,
            latest,
            mark: mark_value(mark),
        },
        Entry::Arc { from, to } => Stated::One(Fact::Arc {
            from: index(from),
            to: index(to),
        }),
        Entry::Mark { job, mark } => Stated::One(marking(index(job), mark_value(mark))),
        Entry::Cut {
            job,
            earliest,
            latest,
        } => cutting(index(job), earliest, latest),
    }
}
