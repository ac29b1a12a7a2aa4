// The board of one dock as a struct by value, with the limits that belong to its type, and the refusals of the table.
#![tactic(auto)]

ghost use Rattle.std.specs.Prelude.{◌≡◌};
ghost use Rattle.paper_board.specs.Paper.Limits.{empty_board};
ghost use Rattle.paper_board.specs.Paper.Parts.{empty_books};
ghost use Rattle.paper_board.specs.Paper.Refusals.{number_of};

pub mod facts;
pub mod range;

// A place k below `jobs` is job k. A place without a job holds 0 in everything. Bit k of `after[i]` is the arc from i to k,
// and bit i of `before[k]` is the same arc, kept a second time so that either set is one word. A host in C or Rust keeps the same struct.
#[repr(C)]
#[derive(Clone, Copy)]
pub struct Board {
    pub jobs: usize,
    pub lengths: [i32; Board::JOBS],
    pub earliest: [i32; Board::JOBS],
    pub latest: [i32; Board::JOBS],
    pub marks: [u8; Board::JOBS],
    pub after: [u64; Board::JOBS],
    pub before: [u64; Board::JOBS],
    pub books: Books,
}

// What a board keeps beside the arrays: no update and no inference alters it.
#[repr(C)]
#[derive(Clone, Copy)]
pub struct Books {
    pub tally: u32,
}

impl Board {
    // "A board holds at most 64 jobs"
    pub const JOBS: usize = 64;

    // "Times are whole minutes, -500000 to 500000."
    pub const FIRST_MINUTE: i32 = -500000;

    pub const LAST_MINUTE: i32 = 500000;

    // "A job has a length (1 to 10000; 0 once invalid)"
    pub const SHORTEST: i32 = 1;

    pub const LONGEST: i32 = 10000;

    // "a mark: 0 undecided, 1 valid, 2 invalid"
    pub const UNDECIDED: u8 = 0;

    pub const VALID: u8 = 1;

    pub const INVALID: u8 = 2;

    // The tally "stops at 1000000".
    pub const TALLY: u32 = 1000000;

    // A board without jobs whose tally starts at 0.
    pub fn empty() -> Self
        ensures { result ≡ empty_board empty_books }
    {
        Self {
            jobs: 0,
            lengths: [0; Board::JOBS],
            earliest: [0; Board::JOBS],
            latest: [0; Board::JOBS],
            marks: [0; Board::JOBS],
            after: [0; Board::JOBS],
            before: [0; Board::JOBS],
            books: Books { tally: 0 },
        }
    }
}

// Why a call is refused, in the order of the paper's table.
#[derive(Clone, Copy)]
pub enum Refusal {
    Board,
    Full,
    Job,
    Same,
    Length,
    Time,
    Window,
    Mark,
    Impossible,
    Budget,
    Form,
    Load,
}

impl Refusal {
    // The refusal's number in the paper's table; a line each, as there, and not the order of the variants.
    pub fn number(self) -> u32
        ensures { result ≡ number_of self }
    {
        match self {
            Refusal::Board => 0,
            Refusal::Full => 1,
            Refusal::Job => 2,
            Refusal::Same => 3,
            Refusal::Length => 4,
            Refusal::Time => 5,
            Refusal::Window => 6,
            Refusal::Mark => 7,
            Refusal::Impossible => 8,
            Refusal::Budget => 9,
            Refusal::Form => 10,
            Refusal::Load => 11,
        }
    }
}
