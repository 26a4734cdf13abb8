// What a word of the tool prints, in the caller's buffer: a line of three numbers, and where a case was made, its file after it.
#![tactic(auto)]

ghost use Rattle.std.specs.Prelude.{◌≡◌, ◌++◌, ◌≤◌, length, take, drop};
ghost use Rattle.output.specs.Line.{line_of, longest};
ghost use Rattle.collector.specs.Cases.{items_of};
ghost use Rattle.collector.specs.Sound.{Sound};
ghost use Rattle.writer.specs.Written.{written_of, buffer_after};
ghost use Rattle.product.specs.Product.{product_of, most_printed};

use answers::{Told, WriteError};
use collector::Case;
use output::Line;
use record::Record;

// Puts the bytes of a line at the start of a buffer that has room for them.
fn put(line: Line, buf: &mut [u8])
    requires { (line.count ≤ longest) × (line.count ≤ length buf.old) }
    ensures { buf.new ≡ take line.count line.bytes ++ drop line.count buf.old }
{
    buf[..line.count].copy_from_slice(&line.bytes[..line.count]);
}

// Writes a line at the start of a buffer, where the buffer has room for it.
pub fn write_line(told: Told, buf: &mut [u8]) -> Result<usize, WriteError>
    ensures value { result ≡ written_of (line_of told) (length buf.old) }
    ensures buf_after { buf.new ≡ buffer_after (line_of told) buf.old }
    ensures told_len_bound { length (line_of told) ≤ most_printed }
{
    let line = output::line_of(told);
    let n = line.count;
    if buf.len() < n {
        return Err(WriteError::TooShort);
    }
    put(line, buf);
    Ok(n)
}

// Writes the line `0 COUNT 0` and the file of a case, COUNT bytes, where the buffer has room for both.
pub fn write_file(c: Case, buf: &mut [u8]) -> Result<usize, WriteError>
    requires { Sound c }
    ensures value { result ≡ written_of (product_of (items_of c)) (length buf.old) }
    ensures buf_after { buf.new ≡ buffer_after (product_of (items_of c)) buf.old }
    ensures c_len_bound { length (product_of (items_of c)) ≤ most_printed }
{
    let size = c.count.total() * Record::LENGTH;
    let line = output::line_of(Told {
        result: 0,
        second: size,
        third: 0,
    });
    let n = line.count;
    if buf.len() < n + size {
        return Err(WriteError::TooShort);
    }
    put(line, buf);
    // There is room, so the answer is Ok(size).
    let _ = writer::write(c, &mut buf[n..]);
    Ok(n + size)
}
