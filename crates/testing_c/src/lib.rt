// The functions of `testing`, for callers in other languages.
#![tactic(auto)]

ghost use Rattle.std.specs.Prelude.{◌≡◌, length};
ghost use Rattle.answers.specs.Answers.{written_numbers};
ghost use Rattle.collector.specs.Cases.{empty_case};
ghost use Rattle.collector.specs.Taking.{collected_of};
ghost use Rattle.casefile.specs.Answer.{answer_of};
ghost use Rattle.writer.specs.Written.{written_of, buffer_after};
ghost use Rattle.testing.specs.Held.{marks_at, file_held, times};

// The marks of one place after a file is taken. A benchmark reads them, so that the stores cannot be left out.
#[unsafe(no_mangle)]
pub extern "C" fn marks_held(src: &[u8], i: usize) -> u32
    ensures { result ≡ marks_at (collected_of empty_case src.now).case i }
{
    testing::marks_held(src, i)
}

// The three numbers of the answer to a file.
#[unsafe(no_mangle)]
pub extern "C" fn case_result(src: &[u8]) -> usize
    ensures { result ≡ (answer_of src.now).result }
{
    testing::case_result(src)
}

#[unsafe(no_mangle)]
pub extern "C" fn case_second(src: &[u8]) -> usize
    ensures { result ≡ (answer_of src.now).second }
{
    testing::case_second(src)
}

#[unsafe(no_mangle)]
pub extern "C" fn case_third(src: &[u8]) -> usize
    ensures { result ≡ (answer_of src.now).third }
{
    testing::case_third(src)
}

// Writes what is held after a file into a buffer, and gives the first or the second of the numbers that are told.
#[unsafe(no_mangle)]
pub extern "C" fn write_result(src: &[u8], buf: &mut [u8]) -> usize
    ensures value { result ≡ (written_numbers (written_of (file_held src.now) (length buf.old))).result }
    ensures buf_after { buf.new ≡ buffer_after (file_held src.now) buf.old }
{
    testing::write_result(src, buf)
}

#[unsafe(no_mangle)]
pub extern "C" fn write_count(src: &[u8], buf: &mut [u8]) -> usize
    ensures value { result ≡ (written_numbers (written_of (file_held src.now) (length buf.old))).second }
    ensures buf_after { buf.new ≡ buffer_after (file_held src.now) buf.old }
{
    testing::write_count(src, buf)
}

// Writes what is held after a file n times over, so that a benchmark can tell the writing from the taking.
#[unsafe(no_mangle)]
pub extern "C" fn write_times(src: &[u8], buf: &mut [u8], n: usize)
    ensures { buf.new ≡ times n (buffer_after (file_held src.now)) buf.old }
{
    testing::write_times(src, buf, n)
}
