// A number that is given to a program: its decimal digits, and nothing else.
#![tactic(auto)]

ghost use Rattle.number.specs.Numbers.{ReadRightly};

// The most digits of a number: all numbers of so many fit in 64 bits.
pub const LONGEST: usize = 19;

// The number whose digits the bytes are, with no sign and no leading zero; none where they are no such digits, or more than LONGEST.
pub fn number_of(bytes: &[u8]) -> Option<usize>
    ensures { ReadRightly bytes.now result }
{
    let count = bytes.len();
    let is_empty = count < 1;
    if is_empty || LONGEST < count {
        return None;
    }
    if 1 < count && bytes[0] == b'0' {
        return None;
    }
    let mut n = 0;
    for &b in bytes {
        let is_digit = b.is_ascii_digit();
        if !is_digit {
            return None;
        }
        n = 10 * n + usize::from(b - b'0');
    }
    Some(n)
}
