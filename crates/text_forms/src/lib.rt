// "one bracket form a line": the form that a line is.
#![tactic(auto)]

pub mod line;

ghost use Rattle.std.specs.Prelude.{◌≡◌};
ghost use Rattle.std.specs.Option.{option_map};
ghost use Rattle.text_forms.specs.Paper.Forms.{first_of, form_of};
ghost use Rattle.text_forms.specs.FormRead.{entry_shapes};

use paper_entries::Entry;
use text_scans::scan;

// A form with its numbers.
#[derive(Clone, Copy)]
pub enum Form {
    Entry(Entry),
    Row { job: i32 },
    Pair { a: i32, b: i32 },
    Plan { budget: i32 },
    Tally,
}

// The first of the entries' formats that the line is written by.
fn entry(line: &[u8]) -> Option<Entry>
    ensures { option_map Form.Entry result ≡ first_of entry_shapes line.now }
{
    if let Some(numbers) = scan::<4>(b"(add (len #) (win # #) (mark #))", line) {
        let [length, earliest, latest, mark] = numbers;
        return Some(Entry::Addition {
            length,
            earliest,
            latest,
            mark,
        });
    }
    if let Some(numbers) = scan::<2>(b"(arc # #)", line) {
        let [from, to] = numbers;
        return Some(Entry::Arc { from, to });
    }
    if let Some(numbers) = scan::<2>(b"(mark # #)", line) {
        let [job, mark] = numbers;
        return Some(Entry::Mark { job, mark });
    }
    let [job, earliest, latest] = scan::<3>(b"(cut # (win # #))", line)?;
    Some(Entry::Cut {
        job,
        earliest,
        latest,
    })
}

// The first of the formats that the line is written by.
pub fn read(line: &[u8]) -> Option<Form>
    ensures { result ≡ form_of line.now }
{
    if let Some(entry) = entry(line) {
        return Some(Form::Entry(entry));
    }
    if let Some(numbers) = scan::<1>(b"(row #)", line) {
        let [job] = numbers;
        return Some(Form::Row { job });
    }
    if let Some(numbers) = scan::<2>(b"(two # #)", line) {
        let [a, b] = numbers;
        return Some(Form::Pair { a, b });
    }
    if let Some(numbers) = scan::<1>(b"(plan #)", line) {
        let [budget] = numbers;
        return Some(Form::Plan { budget });
    }
    scan::<0>(b"(tally)", line)?;
    Some(Form::Tally)
}
