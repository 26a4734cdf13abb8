// What each word of the tool prints for a case file, in the caller's buffer.
#![tactic(auto)]

ghost use Rattle.std.specs.Prelude.{◌≡◌, ◌≤◌, length, take, IfOk};
ghost use Rattle.collector.specs.Sound.{Sound};
ghost use Rattle.writer.specs.Written.{written_of, buffer_after};
ghost use Rattle.product.specs.Product.{most_printed};
ghost use Rattle.tool.specs.Outputs.{read_case, made_output, case_filled, fill_output, case_span, rounds_output, case_set, set_output};

use answers::{Told, WriteError};
use casefile::ENOUGH;
use collector::Case;
use fill::Draft;
use loops::Plan;
use output::Line;
use record::Record;

// The most bytes of what a word prints: a line, and the file of a full case.
pub const MOST: usize = Line::MOST + Record::LENGTH * Case::ROOM;

// The case of a file all of whose records are taken, or what is told of the first that is refused.
fn read_case(src: &[u8]) -> Result<Case, Told>
    ensures value { result ≡ read_case src.now }
    ensures sound { IfOk result Sound }
{
    let mut case = Case::empty();
    match case.take_all(src) {
        Ok(_) => Ok(case),
        Err((taken, refusal)) => Err(casefile::refused(taken, Err(refusal))),
    }
}

// Prints the file of a case that was made, or the line that says why none was.
fn print_made(made: bool, c: Case, told: Told, buf: &mut [u8]) -> Result<usize, WriteError>
    requires { Sound c }
    ensures value { result ≡ written_of (made_output made c told) (length buf.old) }
    ensures buf_after { buf.new ≡ buffer_after (made_output made c told) buf.old }
    ensures told_len_bound { length (made_output made c told) ≤ most_printed }
{
    if made {
        return product::write_file(c, buf);
    }
    product::write_line(told, buf)
}

// Fills in the marks of a case, and prints it or why it can't be.
fn fill_case(c: Case, buf: &mut [u8]) -> Result<usize, WriteError>
    requires { Sound c }
    ensures value { result ≡ written_of (case_filled c) (length buf.old) }
    ensures buf_after { buf.new ≡ buffer_after (case_filled c) buf.old }
    ensures c_len_bound { length (case_filled c) ≤ most_printed }
{
    let mut draft = Draft { case: c };
    let answer = draft.fill();
    print_made(answer.is_ok(), draft.case, Told::from(answer), buf)
}

// Prints the file with its marks filled in; what comes after ENOUGH bytes of it doesn't matter, and MOST bytes have room for what is printed.
pub fn fill(src: &[u8], buf: &mut [u8]) -> Result<usize, WriteError>
    ensures value { result ≡ written_of (fill_output src.now) (length buf.old) }
    ensures buf_after { buf.new ≡ buffer_after (fill_output src.now) buf.old }
    ensures src_value { fill_output src.now ≡ fill_output (take ENOUGH src.now) }
    ensures src_len_bound { length (fill_output src.now) ≤ MOST }
{
    match read_case(src) {
        Ok(case) => fill_case(case, buf),
        Err(told) => product::write_line(told, buf),
    }
}

// Prints the rounds that loop k of a case may have.
fn span_case(c: Case, k: usize, buf: &mut [u8]) -> Result<usize, WriteError>
    requires { Sound c }
    ensures value { result ≡ written_of (case_span k c) (length buf.old) }
    ensures buf_after { buf.new ≡ buffer_after (case_span k c) buf.old }
    ensures c_len_bound { length (case_span k c) ≤ most_printed }
{
    product::write_line(Told::from(Plan { case: c }.span(k)), buf)
}

// Prints the least and the greatest rounds of loop k with which the file's case is accepted; as much of the file matters, and as much room is enough, as for `fill`.
pub fn rounds(src: &[u8], k: usize, buf: &mut [u8]) -> Result<usize, WriteError>
    ensures value { result ≡ written_of (rounds_output k src.now) (length buf.old) }
    ensures buf_after { buf.new ≡ buffer_after (rounds_output k src.now) buf.old }
    ensures src_value { rounds_output k src.now ≡ rounds_output k (take ENOUGH src.now) }
    ensures src_len_bound { length (rounds_output k src.now) ≤ MOST }
{
    match read_case(src) {
        Ok(case) => span_case(case, k, buf),
        Err(told) => product::write_line(told, buf),
    }
}

// Sets the rounds of loop k of a case to n, and prints it or why it can't be.
fn set_case(c: Case, k: usize, n: usize, buf: &mut [u8]) -> Result<usize, WriteError>
    requires { Sound c }
    ensures value { result ≡ written_of (case_set k n c) (length buf.old) }
    ensures buf_after { buf.new ≡ buffer_after (case_set k n c) buf.old }
    ensures c_len_bound { length (case_set k n c) ≤ most_printed }
{
    let mut plan = Plan { case: c };
    let answer = plan.set(k, n);
    print_made(answer.is_ok(), plan.case, Told::from(answer), buf)
}

// Prints the file with n rounds in loop k; as much of the file matters, and as much room is enough, as for `fill`.
pub fn set(src: &[u8], k: usize, n: usize, buf: &mut [u8]) -> Result<usize, WriteError>
    ensures value { result ≡ written_of (set_output k n src.now) (length buf.old) }
    ensures buf_after { buf.new ≡ buffer_after (set_output k n src.now) buf.old }
    ensures src_value { set_output k n src.now ≡ set_output k n (take ENOUGH src.now) }
    ensures src_len_bound { length (set_output k n src.now) ≤ MOST }
{
    match read_case(src) {
        Ok(case) => set_case(case, k, n, buf),
        Err(told) => product::write_line(told, buf),
    }
}
