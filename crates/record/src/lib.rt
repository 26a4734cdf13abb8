// A record of a case file: a kind letter, eight fields of seven bytes and a line feed.
#![tactic(auto)]

ghost use Rattle.std.specs.Prelude.{◌≡◌, ◌+◌, ◌≤◌, ◌<◌, ◌^◌, length, drop, get_or};
ghost use Rattle.record.specs.Spelling.{space, content_of, content_from, leading, digits};
ghost use Rattle.record.specs.Layout.{width, record_length, record_of};

// What a field says; where it is neither blank nor a number, which of its bytes is bad, counted from 0.
#[derive(Clone, Copy)]
pub enum Content {
    Blank,
    Number(i32),
    Bad(u32),
}

// A field of a record. (A struct around the enum, from when an array of enums could be no field of a struct.)
#[derive(Clone, Copy)]
pub struct Field {
    pub content: Content,
}

// The fields of a record, in order.
#[derive(Clone, Copy)]
pub struct Record {
    pub fields: [Field; Record::FIELDS],
}

impl Record {
    // The bytes of a field.
    pub const WIDTH: usize = 7;

    // The fields of a record.
    pub const FIELDS: usize = 8;

    // The bytes of a record: the letter, the fields, the line feed.
    pub const LENGTH: usize = 1 + Record::FIELDS * Record::WIDTH + 1;

    // Reads the fields of a whole record.
    pub fn read(bytes: &[u8]) -> Record
        requires { length bytes.now ≡ record_length }
        ensures { result ≡ record_of bytes.now }
    {
        let blank = Field {
            content: Content::Blank,
        };
        let mut fields = [blank; Record::FIELDS];
        for k in 0..Record::FIELDS {
            let a = 1 + k * Record::WIDTH;
            let content = read_field(&bytes[a..a + Record::WIDTH]);
            fields[k] = Field { content };
        }
        Record { fields }
    }
}

// Reads one field: passes the spaces.
fn read_field(part: &[u8]) -> Content
    requires { length part.now ≡ width }
    ensures { result ≡ content_of part.now }
{
    for (i, b) in part.iter().enumerate() {
        if *b != b' ' {
            return read_token(part, i);
        }
    }
    Content::Blank
}

// Reads what follows the spaces, from byte i on: a minus, a 0 or another digit. (Inlined into the pass over the spaces, it makes taking 40 % slower.)
#[inline(never)]
fn read_token(part: &[u8], i: usize) -> Content
    requires { (i < length part.now) × ((length part.now ≡ width) × (get_or part.now i 0 ≡ space → ⊥)) }
    ensures { result ≡ content_from i (drop i part.now) }
{
    let b = part[i];
    if b == b'-' {
        let j = i + 1;
        if j == part.len() {
            return Content::Bad(i as u32); // the minus itself
        }
        return read_number(part, j, true);
    }
    let is_zero = b == b'0';
    if is_zero {
        let j = i + 1;
        if j == part.len() {
            return Content::Number(0);
        }
        return Content::Bad(i as u32); // the 0 itself
    }
    read_number(part, i, false)
}

// Reads a number other than 0 whose first digit is byte `at`, with a minus before it or not.
fn read_number(part: &[u8], at: usize, neg: bool) -> Content
    requires { (at < length part.now) × (length part.now ≡ width) }
    ensures { result ≡ leading neg at (get_or part.now at 0) (drop (at + 1) part.now) }
{
    let b = part[at];
    let is_low = b < b'1';
    if is_low || b'9' < b {
        return Content::Bad(at as u32);
    }
    read_digits(part, at + 1, neg, u32::from(b - b'0'))
}

// Reads the digits from byte `from` on, after those of `first`. (`number` reads digits too, but tells no bad byte, has no sign and 64 bits: no clause in common.)
fn read_digits(part: &[u8], from: usize, neg: bool, first: u32) -> Content
    requires { (from ≤ length part.now) × ((length part.now ≡ width) × (first < 10 ^ from)) }
    ensures { result ≡ digits neg first from (drop from part.now) }
{
    let mut n = first;
    for j in from..part.len() {
        let b = part[j];
        if !b.is_ascii_digit() {
            return Content::Bad(j as u32);
        }
        n = 10 * n + u32::from(b - b'0');
    }
    let x = n as i32;
    Content::Number(if neg { -x } else { x })
}
