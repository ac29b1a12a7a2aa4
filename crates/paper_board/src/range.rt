// The limits of times and lengths, as tests.
ghost use Rattle.std.specs.Prelude.{◌≡◌};
ghost use Rattle.paper_board.specs.Paper.Tests as tests;

use crate::Board;

pub fn between(low: i32, high: i32, z: i32) -> bool
    ensures { result ≡ tests.between low high z }
{
    low <= z && z <= high
}

pub fn is_time(z: i32) -> bool
    ensures { result ≡ tests.is_time z }
{
    between(Board::FIRST_MINUTE, Board::LAST_MINUTE, z)
}

pub fn is_length(z: i32) -> bool
    ensures { result ≡ tests.is_length z }
{
    between(Board::SHORTEST, Board::LONGEST, z)
}
