// What is held of a file filled, for tests and benchmarks in other languages. It is apart from `testing`, so that judging is measured as the program has it.
#![tactic(auto)]

ghost use Rattle.std.specs.Prelude.{◌≡◌, length};
ghost use Rattle.answers.specs.Answers.{written_numbers};
ghost use Rattle.collector.specs.Cases.{empty_case};
ghost use Rattle.collector.specs.Taking.{collected_of};
ghost use Rattle.writer.specs.Written.{written_of, buffer_after};
ghost use Rattle.tool.specs.Outputs.{fill_output};
ghost use Rattle.testing.specs.Held.{marks_at, times};
ghost use Rattle.testing_fill.specs.Kept.{kept, file_kept};

use collector::Case;
use fill::Draft;

// What the tool prints for a file with its marks filled in, in a buffer: how many bytes.
#[unsafe(no_mangle)]
pub extern "C" fn fill_bytes(src: &[u8], buf: &mut [u8]) -> usize
    ensures value { result ≡ (written_numbers (written_of (fill_output src.now) (length buf.old))).second }
    ensures buf_after { buf.new ≡ buffer_after (fill_output src.now) buf.old }
{
    tool::fill(src, buf).unwrap_or(0)
}

// Fills in the marks of what is held after a file, and writes back the case that comes of it, filled or not: how many bytes.
#[unsafe(no_mangle)]
pub extern "C" fn fill_kept(src: &[u8], buf: &mut [u8]) -> usize
    ensures value { result ≡ (written_numbers (written_of (file_kept src.now) (length buf.old))).second }
    ensures buf_after { buf.new ≡ buffer_after (file_kept src.now) buf.old }
{
    let mut draft = Draft {
        case: testing::held(src),
    };
    let _ = draft.fill();
    writer::write(draft.case, buf).unwrap_or(0)
}

// The marks of one place after what is held of a file is filled n times over, so that a benchmark can tell the filling from the taking.
#[unsafe(no_mangle)]
pub extern "C" fn fill_times(src: &[u8], n: usize, i: usize) -> u32
    ensures { result ≡ marks_at (times n kept (collected_of empty_case src.now).case) i }
{
    let mut draft = Draft {
        case: testing::held(src),
    };
    for _ in 0..n {
        let _ = draft.fill();
    }
    draft.case.places[i % Case::PLACES].marks
}
