// A page of text in a lent buffer, and numbers written on it.
#![tactic(auto)]

ghost use Rattle.std.specs.Prelude.{[], ◌∷◌, ◌≡◌, ◌+◌, ◌-◌, ◌≤◌, ◌<◌, length, take};
ghost use Rattle.text_decimals.specs.Decimal.{natural, decimal};

// What is written so far stands at the start of the buffer.
#[derive(Drop)]
pub struct Page<'a> {
    buffer: &'a mut [u8],
    written: usize,
    ghost within: { written ≤ length buffer.now },
}

impl<'a> Page<'a> {
    ghost use Rattle.text_decimals.specs.Written.{text_of, capacity_of, SameBuffer, HasRoom, Written};

    pub fn new(buffer: &'a mut [u8]) -> Page<'a>
        ensures text { text_of result ≡ [] }
        ensures capacity { capacity_of result ≡ length buffer.old }
        ensures same_buffer { result.buffer.ghost_name ≡ buffer.entry.ghost_name }
    {
        Page { buffer, written: 0 }
    }

    // The buffer then holds the text at its start: how many bytes it has.
    pub fn finish(self) -> usize
        ensures length { result ≡ length (text_of self.entry) }
        ensures text { take result self.exit.0.now ≡ text_of self.entry }
        ensures capacity { length self.exit.0.now ≡ capacity_of self.entry }
    {
        self.text().len()
    }

    pub fn text(&self) -> &[u8]
        ensures { result.now ≡ text_of self.now }
    {
        &self.buffer[..self.written]
    }

    // How many bytes can still be written.
    pub fn room(&self) -> usize
        ensures { length (text_of self.now) + result ≡ capacity_of self.now }
    {
        self.buffer.len() - self.written
    }

    pub fn clear(&mut self)
        ensures text { text_of self.new ≡ [] }
        ensures capacity { capacity_of self.new ≡ capacity_of self.old }
        ensures same_buffer { SameBuffer self.old self.new }
    {
        self.written = 0;
    }

    pub fn byte(&mut self, byte: u8)
        requires { HasRoom self.old 1 }
        ensures { Written self.old self.new (byte ∷ []) 1 }
    {
        self.buffer[self.written] = byte;
        self.written += 1;
    }

    // In just as much room as the digits take.
    fn digits(&mut self, n: u64)
        requires { HasRoom self.old (length (natural n)) }
        ensures { Written self.old self.new (natural n) (length (natural n)) }
    {
        if n < 10 {
            return self.byte(digit(n));
        }
        self.digits(n / 10);
        self.byte(digit(n % 10));
    }

    pub fn natural(&mut self, n: u64)
        requires { HasRoom self.old 20 }
        ensures { Written self.old self.new (natural n) 20 }
    {
        self.digits(n);
    }

    pub fn number(&mut self, z: i32)
        requires { HasRoom self.old 11 }
        ensures { Written self.old self.new (decimal z) 11 }
    {
        if z.is_negative() {
            self.byte(b'-');
        }
        self.digits(z.unsigned_abs().into());
    }
}

// A number at the start of a buffer: how many bytes it takes.
pub fn put_number(buffer: &mut [u8], z: i32) -> usize
    requires { 11 ≤ length buffer.old }
    ensures text { take result buffer.new ≡ decimal z }
    ensures capacity { length buffer.new ≡ length buffer.old }
    ensures most { result ≤ 11 }
{
    let mut page = Page::new(buffer);
    page.number(z);
    page.text().len()
}

fn digit(d: u64) -> u8
    requires { d < 10 }
    ensures { result ≡ 48 + d }
{
    b'0' + d as u8
}
