// The answer to a file, what is held of it, and what is held written back, for tests and benchmarks in other languages (by `testing_c`).
#![tactic(auto)]

ghost use Rattle.std.specs.Prelude.{◌≡◌, length};
ghost use Rattle.answers.specs.Answers.{written_numbers};
ghost use Rattle.collector.specs.Cases.{empty_case};
ghost use Rattle.collector.specs.Taking.{collected_of};
ghost use Rattle.collector.specs.Sound.{Sound};
ghost use Rattle.casefile.specs.Answer.{answer_of};
ghost use Rattle.writer.specs.Written.{written_of, buffer_after};
ghost use Rattle.testing.specs.Held.{marks_at, file_held, times};

use answers::Told;
use collector::Case;

// The case that is held after a file is taken, up to the first record that is refused.
pub fn held(src: &[u8]) -> Case
    ensures value { result ≡ (collected_of empty_case src.now).case }
    ensures sound { Sound result }
{
    let mut case = Case::empty();
    let _ = case.take_all(src);
    case
}

// The marks of one place after a file is taken. A benchmark reads them, so that the stores cannot be left out.
pub fn marks_held(src: &[u8], i: usize) -> u32
    ensures { result ≡ marks_at (collected_of empty_case src.now).case i }
{
    held(src).places[i % Case::PLACES].marks
}

// The three numbers of the answer to a file.
pub fn case_result(src: &[u8]) -> usize
    ensures { result ≡ (answer_of src.now).result }
{
    casefile::answer(src).result
}

pub fn case_second(src: &[u8]) -> usize
    ensures { result ≡ (answer_of src.now).second }
{
    casefile::answer(src).second
}

pub fn case_third(src: &[u8]) -> usize
    ensures { result ≡ (answer_of src.now).third }
{
    casefile::answer(src).third
}

// Writes what is held after a file into a buffer, and gives the numbers that are told.
fn written(src: &[u8], buf: &mut [u8]) -> Told
    ensures value { result ≡ written_numbers (written_of (file_held src.now) (length buf.old)) }
    ensures buf_after { buf.new ≡ buffer_after (file_held src.now) buf.old }
{
    Told::from(writer::write(held(src), buf))
}

// The same, for the first two of the numbers.
pub fn write_result(src: &[u8], buf: &mut [u8]) -> usize
    ensures value { result ≡ (written_numbers (written_of (file_held src.now) (length buf.old))).result }
    ensures buf_after { buf.new ≡ buffer_after (file_held src.now) buf.old }
{
    written(src, buf).result
}

pub fn write_count(src: &[u8], buf: &mut [u8]) -> usize
    ensures value { result ≡ (written_numbers (written_of (file_held src.now) (length buf.old))).second }
    ensures buf_after { buf.new ≡ buffer_after (file_held src.now) buf.old }
{
    written(src, buf).second
}

// Writes what is held after a file n times over, so that a benchmark can tell the writing from the taking.
pub fn write_times(src: &[u8], buf: &mut [u8], n: usize)
    ensures { buf.new ≡ times n (buffer_after (file_held src.now)) buf.old }
{
    let case = held(src);
    for _ in 0..n {
        let _ = writer::write(case, buf);
    }
}
