// "keeps something twice that doesn't agree": each arc stands in the word after its first job and in the word before its second.
#![tactic(auto)]

ghost use Rattle.std.specs.Prelude.{◌≡◌};
ghost use Rattle.paper_board.specs.BoardTests.Decides.{Decides};
ghost use Rattle.engine_agreement.specs.Agree.{differences, Agree};

use engine_transposition::transpose;
use paper_board::Board;

// The bits in which two words at the same place differ. The words are compared to the last without a branch, which is faster than leaving at the
// first difference.
fn differences<'a>(a: &'a [u64; Board::JOBS], b: &'a [u64; Board::JOBS]) -> u64
    ensures { result ≡ differences a.now b.now }
{
    a.iter().zip(b).fold(0, |found, (a, b)| found | (a ^ b))
}

pub fn agree<'a>(after: &'a [u64; Board::JOBS], before: &'a [u64; Board::JOBS]) -> bool
    ensures { Decides result (Agree after.now before.now) }
{
    let transposed = transpose(after);
    differences(&transposed, before) == 0
}
