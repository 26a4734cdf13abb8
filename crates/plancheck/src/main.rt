// Judges case files and prints the line of each: that of the case on standard input, or where there are arguments, those of the files that they name,
// each with its name. No contract can say what a call of the system reads or writes, so the program only reads, calls the library and writes.
#![tactic(auto)]

ghost use Rattle.std.specs.Prelude.{◌≡◌, ◌++◌, ◌+◌, ◌≤◌, length, take};
ghost use Rattle.input.specs.Counts.{IsPrefixLen};
ghost use Rattle.casefile.specs.Answer.{answer_of};
ghost use Rattle.plancheck.specs.Named.{has_line_feed, longest_name, named_line};

use casefile::{ENOUGH, answer};
use input::Input;
use output::{Line, line_of};
use std::env::FillError;
use std::fs::File;
use std::io;
use std::io::ErrorKind;
use std::rt::Env;

// The most bytes of an argument that is read; a path has one less.
const PATH_MAX: usize = 4096;

// The system's number of the error that a name is too long.
const ENAMETOOLONG: i32 = 36;

// The most bytes of the line of a named file: those of a line, a space and a name.
const MOST: usize = Line::MOST + 1 + PATH_MAX;

// Puts bytes into a buffer behind its first `at`, and answers how many are there then.
fn put(part: &[u8], at: usize, buf: &mut [u8]) -> usize
    requires { at + length part.now ≤ length buf.old }
    ensures value { result ≡ at + length part.now }
    ensures buf_after { take result buf.new ≡ take at buf.old ++ part.now }
{
    let end = at + part.len();
    buf[at..end].copy_from_slice(part);
    end
}

// Puts the line of a file at the start of a buffer, by its bytes and its name, and answers how many bytes it is.
fn named(src: &[u8], name: &[u8], buf: &mut [u8; MOST]) -> usize
    requires { length name.now ≤ longest_name }
    ensures prefix_len { IsPrefixLen result buf.new }
    ensures buf_after { take result buf.new ≡ named_line (answer_of src.now) name.now }
{
    let line = line_of(answer(src));
    let bytes = line.bytes;
    let count = line.count - 1;
    let numbers = put(&bytes[..count], 0, buf);
    let spaced = put(b" ", numbers, buf);
    let all = put(name, spaced, buf);
    put(b"\n", all, buf)
}

// Whether a name has a line feed in it, so that its line would be two.
fn has_line_feed(name: &[u8]) -> bool
    ensures { result ≡ has_line_feed name.now }
{
    name.contains(&b'\n')
}

// Writes a line, and answers whether all of it was written; where it wasn't, it says why, but for a reader that has enough.
fn print(rt: &HostRuntime, line: &[u8]) -> bool {
    match rt.write_all(line) {
        Ok(()) => true,
        Err(error) => {
            if error.kind() != ErrorKind::BrokenPipe {
                input::fail(&rt.stderr(), b"plancheck: standard output", error);
            }
            false
        }
    }
}

// Says on standard error why a call failed on a file.
fn fail(rt: &HostRuntime, name: &[u8], error: io::Error) {
    let _ = rt.stderr().write_all(b"plancheck: ");
    input::fail(&rt.stderr(), name, error);
}

// Opens a named file. (std's paths are UTF-8.)
fn open(rt: &HostRuntime, name: &[u8]) -> io::Result<File> {
    match str::from_utf8(name) {
        Ok(path) => File::open(rt, path),
        Err(_) => Err(io::Error::new(ErrorKind::InvalidFilename, "the name isn't UTF-8")),
    }
}

// Reads a named file; `-` is standard input.
fn read(rt: &HostRuntime, name: &[u8], src: &mut [u8]) -> Input
    ensures { IsPrefixLen result.count src.new }
{
    if name == b"-".as_slice() {
        return input::read_all(rt, src);
    }
    match open(rt, name) {
        Ok(mut file) => input::read_from(&mut file, src),
        Err(error) => Input {
            count: 0,
            failure: Some(error),
        },
    }
}

// Prints the line of a named file, if it can be read, and answers whether lines can still be written.
fn judge_file(rt: &HostRuntime, name: &[u8], src: &mut [u8]) -> bool
    requires { length name.now ≤ longest_name }
{
    if has_line_feed(name) {
        let err = rt.stderr();
        let _ = err.write_all(b"plancheck: a name with a line feed has no line: ");
        let _ = err.write_all(name);
        let _ = err.write_all(b"\n");
        return true;
    }
    let input = read(rt, name, src);
    if let Some(error) = input.failure {
        fail(rt, name, error);
        return true;
    }
    let mut line = [0u8; MOST];
    let m = named(&src[..input.count], name, &mut line);
    print(rt, &line[..m])
}

// The same of the file that argument i names; where there is no such argument, there is no line to be written any more.
fn judge_argument(rt: &HostRuntime, i: usize, src: &mut [u8]) -> bool {
    let mut name = [0u8; PATH_MAX];
    match rt.arg(i, &mut name) {
        Ok(n) => judge_file(rt, &name[..n], src),
        Err(FillError::TooLong) => {
            fail(rt, &name, io::Error::from_raw_os_error(ENAMETOOLONG));
            true
        }
        Err(FillError::NotPresent) => false,
    }
}

// The same of all arguments, of which the first is the program's name.
fn judge_all(rt: &HostRuntime) {
    let mut src = [0u8; ENOUGH];
    for i in 1..usize::MAX {
        if !judge_argument(rt, i, &mut src) {
            break;
        }
    }
}

// Prints the line of the case on standard input.
fn judge_input(rt: &HostRuntime) {
    let mut src = [0u8; ENOUGH];
    let input = input::read_all(rt, &mut src);
    if let Some(error) = input.failure {
        fail(rt, b"standard input", error);
        return;
    }
    let line = line_of(answer(&src[..input.count]));
    let bytes = line.bytes;
    print(rt, &bytes[..line.count]);
}

fn main(rt: HostRuntime) {
    if let Err(FillError::NotPresent) = rt.arg(1, &mut []) {
        judge_input(&rt);
    } else {
        judge_all(&rt);
    }
}
