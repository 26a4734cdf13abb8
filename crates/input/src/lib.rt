// A file, as standard input, read into a lent buffer, and what is said where that fails: what the programs share.
#![tactic(auto)]

ghost use Rattle.std.specs.Prelude.{◌≢◌, IfErr, IfSome};
ghost use Rattle.std.specs.IoError.{error_kind};
ghost use Rattle.std.specs.Io.{ReadsAtMost, StartsWith};
ghost use Rattle.std.specs.Io.KnownBytes.{ReadConsumes};
ghost use Rattle.input.specs.Counts.{IsPrefixLen};
ghost use Rattle.input.specs.Reading.{HasRead};

use std::fmt::InlineText;
use std::io;
use std::io::{ErrorKind, Read};

// What was read: how many bytes, and why a read failed, if one did. (Both: the clause `read` tells of the bytes before a read that failed.)
#[derive(Clone, Copy)]
pub struct Input {
    pub count: usize,
    pub failure: Option<io::Error>,
}

// One read, tried again where it is interrupted. A proved loop has to end, so it counts its turns, up to a number that no run reaches.
fn read<R: Read>(reader: &mut R, part: &mut [u8]) -> io::Result<usize>
    ensures bound { ReadsAtMost result part.new }
    ensures bytes { ReadConsumes (R.remaining reader.old) (R.remaining reader.new) result part.new }
    ensures retried { IfErr result (λ e. error_kind e ≢ ErrorKind.Interrupted) }
{
    for _ in 0..u64::MAX {
        match reader.read(part) {
            Ok(n) => return Ok(n),
            Err(e) => {
                if e.kind() != ErrorKind::Interrupted {
                    return Err(e);
                }
            }
        }
    }
    Err(io::Error::from(ErrorKind::TimedOut))
}

// Reads until buf is full, the reader is at its end or a read fails.
pub fn read_from<R: Read>(reader: &mut R, buf: &mut [u8]) -> Input
    ensures prefix_len { IsPrefixLen result.count buf.new }
    ensures read { HasRead (R.remaining reader.old) (R.remaining reader.new) result buf.new }
    ensures retried { IfSome result.failure (λ e. error_kind e ≢ ErrorKind.Interrupted) }
{
    let mut count = 0;
    while count < buf.len() {
        match read(reader, &mut buf[count..]) {
            Ok(0) => break,
            Ok(n) => count += n,
            Err(e) => {
                return Input {
                    count,
                    failure: Some(e),
                };
            }
        }
    }
    Input {
        count,
        failure: None,
    }
}

// The same of standard input: a reader of it had these bytes next.
pub fn read_all<R: io::Input>(rt: &R, buf: &mut [u8]) -> Input
    ensures prefix_len { IsPrefixLen result.count buf.new }
    ensures read { (old : R.Reader) × (new : R.Reader) × HasRead (R.Reader.remaining old) (R.Reader.remaining new) result buf.new }
    ensures retried { IfSome result.failure (λ e. error_kind e ≢ ErrorKind.Interrupted) }
{
    read_from(&mut rt.reader(), buf)
}

// The words of an error, without the system's number of it, which std puts behind them.
fn words(text: &str) -> &str
    ensures { StartsWith text.now result.now }
{
    match text.split_once(" (os error ") {
        Some((words, _)) => words,
        None => text,
    }
}

// Says what failed and why. That it can't be said changes nothing.
pub fn fail(err: &impl Print, what: &[u8], why: io::Error) {
    let text = InlineText::<128>::of(why);
    let _ = err.write_all(what);
    let _ = err.write_all(b": ");
    let _ = err.println(words(text.as_str()));
}
