// Prints what a word of the tool says of a case: the word is the first argument, its numbers are those after it, and the case stands on standard input.
// No contract can say what a call of the system reads or writes, so the program only reads, calls the library and writes.
#![tactic(auto)]

ghost use Rattle.std.specs.Prelude.{◌≡◌, take};
ghost use Rattle.input.specs.Counts.{IsPrefixLen};
ghost use Rattle.plantool.specs.Words.{AskedRightly, printed};

use casefile::ENOUGH;
use std::env::FillError;
use std::io::ErrorKind;
use std::rt::Env;
use tool::MOST;

// A word of the tool, with its numbers.
#[derive(Clone, Copy)]
enum Word {
    Fill,
    // of a loop
    Rounds(usize),
    // of a loop, to so many rounds
    Set(usize, usize),
}

impl Word {
    // The most bytes of a word.
    const LONGEST: usize = 6;
}

// The word that is asked for by its bytes and how many numbers follow it, with the bytes of the first two; none where nothing is asked for.
fn asked_by(word: &[u8], count: usize, first: &[u8], second: &[u8]) -> Option<Word>
    ensures { AskedRightly word.now count first.now second.now result }
{
    if count == 0 && word == b"fill".as_slice() {
        return Some(Word::Fill);
    }
    if count == 1 && word == b"rounds".as_slice() {
        let k = number::number_of(first)?;
        return Some(Word::Rounds(k));
    }
    if count == 2 && word == b"set".as_slice() {
        let k = number::number_of(first)?;
        let n = number::number_of(second)?;
        return Some(Word::Set(k, n));
    }
    None
}

// How many arguments the program has, without its name.
fn argument_count(rt: &HostRuntime) -> usize {
    let mut count = 0;
    for i in 1..usize::MAX {
        if let Err(FillError::NotPresent) = rt.arg(i, &mut []) {
            break;
        }
        count = i;
    }
    count
}

// The word that the program's arguments ask for. (The first is its name; one that is missing, or longer than a word or a number can be, is read as no bytes.)
fn arguments(rt: &HostRuntime) -> Option<Word> {
    let count = argument_count(rt);
    if count < 1 {
        return None;
    }
    let mut word = [0u8; Word::LONGEST];
    let n = rt.arg(1, &mut word).unwrap_or(0);
    let mut first = [0u8; number::LONGEST];
    let a = rt.arg(2, &mut first).unwrap_or(0);
    let mut second = [0u8; number::LONGEST];
    let b = rt.arg(3, &mut second).unwrap_or(0);
    asked_by(&word[..n], count - 1, &first[..a], &second[..b])
}

// Puts what a word prints for a case file at the start of a buffer, and answers how many bytes it is.
fn run(word: Word, src: &[u8], buf: &mut [u8; MOST]) -> usize
    ensures prefix_len { IsPrefixLen result buf.new }
    ensures buf_after { take result buf.new ≡ printed word src.now }
{
    let written = match word {
        Word::Fill => tool::fill(src, buf),
        Word::Rounds(k) => tool::rounds(src, k, buf),
        Word::Set(k, n) => tool::set(src, k, n, buf),
    };
    written.unwrap_or(0)
}

// Reads a case file, and writes what a word prints for it; where it can't, it says why, but for a reader that has enough.
fn print(rt: &HostRuntime, word: Word) {
    let mut src = [0u8; ENOUGH];
    let input = input::read_all(rt, &mut src);
    if let Some(error) = input.failure {
        input::fail(&rt.stderr(), b"plantool: standard input", error);
        return;
    }
    let n = input.count;
    let mut buf = [0u8; MOST];
    let m = run(word, &src[..n], &mut buf);
    if let Err(error) = rt.write_all(&buf[..m]) {
        if error.kind() != ErrorKind::BrokenPipe {
            input::fail(&rt.stderr(), b"plantool: standard output", error);
        }
    }
}

fn main(rt: HostRuntime) {
    let Some(word) = arguments(&rt) else {
        let _ = eprintln!(rt;
            "plantool: usage: plantool fill | rounds L | set L N, with the case on standard input"
        );
        return;
    };
    print(&rt, word);
}
