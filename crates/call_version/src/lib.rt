// What a program compares with the header that it was built with, before its first call.
#![tactic(auto)]

ghost use Rattle.std.specs.Prelude.{◌≡◌};
ghost use Rattle.call_version.specs.Version.{version_number, board_bytes};

use paper_board::Board;

// The library's version as one number.
pub fn version_number() -> u32
    ensures { result ≡ version_number }
{
    10000
}

// The bytes of a board.
pub fn board_bytes() -> usize
    ensures { result ≡ board_bytes }
{
    8 + Board::JOBS * (4 + 4 + 4 + 1 + 8 + 8) + 8
}
