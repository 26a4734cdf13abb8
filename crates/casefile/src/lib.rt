// A whole case file: what it is answered. Its definitions, the demands and their theorems stand in specs/.
#![tactic(auto)]

ghost use Rattle.std.specs.Prelude.{◌≡◌, take};
ghost use Rattle.answers.specs.Answers.{refusal};
ghost use Rattle.casefile.specs.Answer.{answer_of};

use answers::{Refusal, Told};
use collector::Case;
use record::Record;

// The bytes of one record more than a case has room for: what comes after them cannot change the answer.
pub const ENOUGH: usize = Record::LENGTH * (Case::ROOM + 1);

// The three numbers of a record that is refused: its result, how many were taken before it, and the byte or the field.
pub fn refused(taken: usize, answer: Result<(), Refusal>) -> Told
    ensures { result ≡ refusal taken answer }
{
    Told {
        result: usize::from(answers::number(answer)),
        second: taken,
        third: answers::third(answer),
    }
}

// The answer to a file: the first refusal of a record, or else the judgement of the case.
pub fn answer(bytes: &[u8]) -> Told
    ensures value { result ≡ answer_of bytes.now }
    ensures by_first_bytes { result ≡ answer_of (take ENOUGH bytes.now) }
{
    let mut case = Case::empty();
    match case.take_all(bytes) {
        Ok(_) => Told::from(judge::judge(case)),
        Err((taken, refusal)) => refused(taken, Err(refusal)),
    }
}
