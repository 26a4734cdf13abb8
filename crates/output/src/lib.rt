// The line that the program prints: three numbers with single spaces, and a line feed.
#![tactic(auto)]

ghost use Rattle.std.specs.Prelude.{◌≡◌, ◌+◌, ◌%◌, ◌≤◌, ◌<◌, length};
ghost use Rattle.record.specs.Spelling.{digit};
ghost use Rattle.record.specs.Spell.{numeral};
ghost use Rattle.output.specs.Line.{line_of, longest, holding, pushed, with_bytes};

use answers::Told;

// A line: its bytes are the first, as many as the count says. (Fixed memory, no heap.)
#[derive(Clone, Copy)]
pub struct Line {
    pub bytes: [u8; Line::MOST],
    pub count: usize,
}

impl Line {
    // The most digits of a number of 64 bits.
    const DIGITS: usize = 20;

    // The most bytes of a line: three numbers, two spaces and a line feed.
    pub const MOST: usize = 3 * Line::DIGITS + 3;

    // The line with one byte more.
    fn with(mut self, b: u8) -> Line
        requires { self.count < longest }
        ensures value { result ≡ pushed self b }
        ensures count_value { result.count ≡ self.count + 1 }
    {
        self.bytes[self.count] = b;
        self.count += 1;
        self
    }

    // The line with the last digit of a number more.
    fn with_digit(self, n: u64) -> Line
        requires { self.count < longest }
        ensures value { result ≡ pushed self (digit (n % 10)) }
        ensures count_value { result.count ≡ self.count + 1 }
    {
        self.with(b'0' + (n % 10) as u8)
    }

    // The line with all digits of a number more: those before the last, and the last.
    fn with_number(self, n: u64) -> Line
        requires { self.count + length (numeral n) ≤ longest }
        ensures value { result ≡ with_bytes self (numeral n) }
        ensures count_value { result.count ≡ self.count + length (numeral n) }
    {
        let is_digit = n < 10;
        if is_digit {
            return self.with_digit(n);
        }
        self.with_number(n / 10).with_digit(n)
    }
}

// The line of an answer.
pub fn line_of(n: Told) -> Line
    ensures { result ≡ holding (line_of n) }
{
    let empty = Line {
        bytes: [0; Line::MOST],
        count: 0,
    };
    let first = empty.with_number(n.result as u64).with(b' ');
    let second = first.with_number(n.second as u64).with(b' ');
    second.with_number(n.third as u64).with(b'\n')
}
