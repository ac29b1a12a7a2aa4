// "A number is an optional minus and 1 to 7 decimal digits, no leading zero, no -0."
#![tactic(auto)]

ghost use Rattle.std.specs.Prelude.{true, ◌≡◌, pos};
ghost use Rattle.std.specs.List.{prefix_len};
ghost use Rattle.text_decimals.specs.Bytes.{is_digit};
ghost use Rattle.text_numerals.specs.Numerals as numerals;
ghost use Rattle.text_numerals.specs.Numerals.{is_natural, natural_at, number_at};

// A number at the start of a text, and how many bytes it takes.
#[derive(Clone, Copy)]
pub struct Numeral {
    pub length: usize,
    pub value: i32,
}

const MOST_DIGITS: usize = 7;

fn digit_count(text: &[u8]) -> usize
    ensures { result ≡ prefix_len is_digit text.now }
{
    text.iter().take_while(|byte| byte.is_ascii_digit()).count()
}

// The digits that a text starts with.
fn digits(text: &[u8]) -> &[u8]
    ensures { result.now ≡ numerals.digits text.now }
{
    &text[..digit_count(text)]
}

// "1 to 7 decimal digits, no leading zero"
fn is_natural(digits: &[u8]) -> bool
    ensures { result ≡ is_natural digits.now }
{
    match digits {
        [] => false,
        [_] => true,
        [first, ..] => *first != b'0' && digits.len() <= MOST_DIGITS,
    }
}

// What the digits at the start of a text come to.
fn value(digits: &[u8]) -> i32
    requires all_digits { numerals.digits digits.now ≡ digits.now }
    requires natural { is_natural digits.now ≡ true }
    ensures { result ≡ pos (numerals.value digits.now) }
{
    let mut sum = 0u32;
    for digit in digits {
        sum = 10 * sum + u32::from(digit - b'0');
    }
    sum as i32
}

fn natural(text: &[u8]) -> Option<Numeral>
    ensures { result ≡ natural_at text.now }
{
    let digits = digits(text);
    if !is_natural(digits) {
        return None;
    }
    Some(Numeral {
        length: digits.len(),
        value: value(digits),
    })
}

// "an optional minus", "no -0": the number whose digits come after the minus.
fn negative(text: &[u8]) -> Option<Numeral>
    ensures { result ≡ numerals.negative (natural_at text.now) }
{
    let Numeral { length, value } = natural(text)?;
    if value == 0 {
        return None;
    }
    Some(Numeral {
        length: length + 1,
        value: -value,
    })
}

pub fn number(text: &[u8]) -> Option<Numeral>
    ensures { result ≡ number_at text.now }
{
    match text.strip_prefix(b"-") {
        Some(digits) => negative(digits),
        None => natural(text),
    }
}
