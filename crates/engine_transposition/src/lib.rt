// The transpose of a matrix of 64 words of 64 bits, by six rounds of exchanged blocks.
#![tactic(auto)]

ghost use Rattle.std.specs.Prelude.{◌<◌};
ghost use Rattle.ground_sets.specs.Bit.{width};
ghost use Rattle.engine_transposition.specs.Transpose.{Mask, Lower, Upper, Exchanged, Transposed};

use paper_board::Board;

// The masked bits of two words: those of the first in their places, those of the second shifted up between them.
#[tactic(auto, using(crate::specs::Transpose::bit_lower))]
fn lower(low: u64, high: u64, shift: usize, mask: u64) -> u64
    requires { Mask shift mask }
    ensures { Lower shift mask low high result }
{
    low ^ ((mask & ((low >> shift) ^ high)) << shift)
}

// The other bits of the two: those of the second in their places, those of the first shifted down between them.
#[tactic(auto, using(crate::specs::Transpose::bit_upper))]
fn upper(low: u64, high: u64, shift: usize, mask: u64) -> u64
    requires { shift < width }
    ensures { Upper shift mask low high result }
{
    high ^ (mask & (high ^ (low >> shift)))
}

// One round: words i and i + 32 become words 2 i and 2 i + 1, which hold the masked bits of both and the other bits of both. The four places
// are plainer by their numbers than by iterators over halves and pairs.
fn exchange(from: &[u64; Board::JOBS], shift: usize, mask: u64) -> [u64; Board::JOBS]
    requires { Mask shift mask }
    ensures { Exchanged shift mask from.now result }
{
    let mut to = [0; Board::JOBS];
    for i in 0..Board::JOBS / 2 {
        let low = from[i];
        let high = from[i + Board::JOBS / 2];
        to[2 * i] = lower(low, high, shift, mask);
        to[2 * i + 1] = upper(low, high, shift, mask);
    }
    to
}

// A word's number and a bit's number in it have six binary digits each. A round exchanges a digit of the one for a digit of the
// other, the highest first.
pub fn transpose(words: &[u64; Board::JOBS]) -> [u64; Board::JOBS]
    ensures { Transposed words.now result }
{
    let halves = exchange(words, 32, 0x00000000FFFFFFFF);
    let quarters = exchange(&halves, 16, 0x0000FFFF0000FFFF);
    let bytes = exchange(&quarters, 8, 0x00FF00FF00FF00FF);
    let nibbles = exchange(&bytes, 4, 0x0F0F0F0F0F0F0F0F);
    let pairs = exchange(&nibbles, 2, 0x3333333333333333);
    exchange(&pairs, 1, 0x5555555555555555)
}
