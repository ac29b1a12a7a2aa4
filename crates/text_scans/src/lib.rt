// A text read by a format.
#![tactic(auto)]

ghost use Rattle.std.specs.Prelude.{◌≡◌, ◌≤◌};
ghost use Rattle.text_formats.specs.Format as formats;
ghost use Rattle.text_formats.specs.Format.{marks, number_mark};
ghost use Rattle.text_scans.specs.Scan.{scanned};

use text_numerals::{Numeral, number};

const NUMBER_MARK: u8 = b'#';

// The numbers at the marks of a format, in turn, and 0 beyond them; none where the text is not the format filled in.
pub fn scan<const N: usize>(format: &[u8], text: &[u8]) -> Option<[i32; N]>
    requires { marks number_mark format.now ≤ N }
    ensures { result ≡ scanned N (formats.scan format.now text.now) }
{
    let mut numbers = [0; N];
    let mut count = 0;
    let mut rest = text;
    for byte in format {
        if *byte == NUMBER_MARK {
            let Numeral { length, value } = number(rest)?;
            numbers[count] = value;
            count += 1;
            rest = &rest[length..];
        } else {
            let (first, others) = rest.split_first()?;
            if first != byte {
                return None;
            }
            rest = others;
        }
    }
    rest.is_empty().then_some(numbers)
}
