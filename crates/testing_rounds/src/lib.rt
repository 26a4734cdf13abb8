// A loop's rounds found and set in what is held of a file, for tests and benchmarks in other languages. It is apart from `testing` and `testing_fill`, so that judging and filling are
// measured as the programs have them.
#![tactic(auto)]

ghost use Rattle.std.specs.Prelude.{◌≡◌, length};
ghost use Rattle.answers.specs.Answers.{written_numbers};
ghost use Rattle.writer.specs.Written.{written_of, buffer_after};
ghost use Rattle.tool.specs.Outputs.{rounds_output, set_output};
ghost use Rattle.testing_rounds.specs.Kept.{file_kept};

use loops::Plan;

// What the tool prints for a file and the rounds that loop k may have, in a buffer: how many bytes.
#[unsafe(no_mangle)]
pub extern "C" fn rounds_bytes(src: &[u8], k: usize, buf: &mut [u8]) -> usize
    ensures value { result ≡ (written_numbers (written_of (rounds_output k src.now) (length buf.old))).second }
    ensures buf_after { buf.new ≡ buffer_after (rounds_output k src.now) buf.old }
{
    tool::rounds(src, k, buf).unwrap_or(0)
}

// What the tool prints for a file with n rounds set in loop k, in a buffer: how many bytes.
#[unsafe(no_mangle)]
pub extern "C" fn set_bytes(src: &[u8], k: usize, n: usize, buf: &mut [u8]) -> usize
    ensures value { result ≡ (written_numbers (written_of (set_output k n src.now) (length buf.old))).second }
    ensures buf_after { buf.new ≡ buffer_after (set_output k n src.now) buf.old }
{
    tool::set(src, k, n, buf).unwrap_or(0)
}

// Sets n rounds in loop k of what is held after a file, and writes back the case that comes of it, set or not: how many bytes.
#[unsafe(no_mangle)]
pub extern "C" fn set_kept(src: &[u8], k: usize, n: usize, buf: &mut [u8]) -> usize
    ensures value { result ≡ (written_numbers (written_of (file_kept k n src.now) (length buf.old))).second }
    ensures buf_after { buf.new ≡ buffer_after (file_kept k n src.now) buf.old }
{
    let mut plan = Plan {
        case: testing::held(src),
    };
    let _ = plan.set(k, n);
    writer::write(plan.case, buf).unwrap_or(0)
}
