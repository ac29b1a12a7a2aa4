// Facts, as entries state them and rules infer them: an arc, a bound on one side of a window, a mark.
ghost use Rattle.std.specs.Prelude.{◌≢◌};

// A side of a job's window: its earliest start, or its latest end.
#[derive(Clone, Copy)]
pub enum Side {
    Early,
    Late,
}

impl Side {
    pub fn other(self) -> Self
        ensures { result ≢ self }
    {
        match self {
            Side::Early => Side::Late,
            Side::Late => Side::Early,
        }
    }
}

#[derive(Clone, Copy)]
pub enum Fact {
    Arc { from: usize, to: usize },
    // The window begins no earlier than `time`, or ends no later.
    Bound { side: Side, job: usize, time: i32 },
    Valid { job: usize },
    Invalid { job: usize },
}
