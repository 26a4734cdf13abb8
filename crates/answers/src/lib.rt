// Every answer of the checker: to a record, of a judgement, of filling in the marks, of a loop's rounds and of writing a case back; with the three numbers that the documents have
// for it.
#![tactic(auto)]

ghost use Rattle.std.specs.Prelude.{◌≡◌};
ghost use Rattle.answers.specs.Answers.{number_of, third_of, numbers, numbers_of, filling_numbers, span_numbers, setting_numbers, written_numbers};

use items::PlaceNo;

// Why a record is refused; with a field, counted from 1, where one is named, and for a field that is misspelled the place of its bad byte in the record.
#[derive(Clone, Copy)]
pub enum Refusal {
    NotARecord,
    NoLineFeed,
    NoSuchKind,
    Misspelled(usize),
    Misfilled(usize),
    OutOfRange(usize),
    OutOfOrder,
    NoRoom,
    NotThere(usize),
    Misplaced(usize),
    WrongWayIn,
}

// Why a plan isn't accepted, one for each result of document 01 but 0.
#[derive(Clone, Copy)]
pub enum Rejection {
    // 24: no sentence, or the endless loop hasn't closed; the number of records held
    Unfinished(usize),
    // 31
    WrongStart,
    // 32: the place, and the move into it that doesn't connect
    Unconnected(PlaceNo, u8),
    // 33: the place, and the guard that fails
    GuardFails(PlaceNo, u8),
    // 34: the place, and the sentence with a wrong mark
    WrongMark(PlaceNo, u8),
    // 35: the root, which isn't marked at place 0
    RootUnmarked(u8),
}

// Why the marks aren't filled in.
#[derive(Clone, Copy)]
pub enum NotFilled {
    // 24, 31, 32 and 33, as in judging
    Refused(Rejection),
    // 37: the place, and the sentence whose truth changes between its rounds
    Changes(PlaceNo, u8),
}

// Why no rounds are found.
#[derive(Clone, Copy)]
pub enum NoSpan {
    // the judgement's own result, of a case that isn't accepted
    Refused(Rejection),
    // 27: the loop, which is absent or endless
    NoLoop(usize),
}

// Why a loop's rounds aren't set.
#[derive(Clone, Copy)]
pub enum NotSet {
    // 24, as in judging: the number of records held
    Unfinished(usize),
    // 27: the loop, which is absent or endless
    NoLoop(usize),
    // 16: the record of the loop's first place, whose field 5 has no such rounds
    OutOfRange(usize),
}

// Why nothing is written.
#[derive(Clone, Copy)]
pub enum WriteError {
    // 41: the buffer is shorter than what is to be written
    TooShort,
}

// The three numbers of an answer: the result, then where, then what.
#[derive(Clone, Copy)]
pub struct Told {
    pub result: usize,
    pub second: usize,
    pub third: usize,
}

impl From<Rejection> for NotFilled {
    ghost use Rattle.answers.specs.declared.NotFilled.TheVariants.{Refused};

    ghost from_gives = { λ rejection filling. filling ≡ Refused rejection };

    fn from(rejection: Rejection) -> NotFilled {
        NotFilled::Refused(rejection)
    }
}

impl From<Rejection> for NoSpan {
    ghost use Rattle.answers.specs.declared.NoSpan.TheVariants.{Refused};

    ghost from_gives = { λ rejection span. span ≡ Refused rejection };

    fn from(rejection: Rejection) -> NoSpan {
        NoSpan::Refused(rejection)
    }
}

// Document 01's number of what a record is answered.
pub fn number(answer: Result<(), Refusal>) -> u8
    ensures { result ≡ number_of answer }
{
    match answer {
        Ok(()) => 0,
        Err(Refusal::NotARecord) => 11,
        Err(Refusal::NoLineFeed) => 12,
        Err(Refusal::NoSuchKind) => 13,
        Err(Refusal::Misspelled(_)) => 14,
        Err(Refusal::Misfilled(_)) => 15,
        Err(Refusal::OutOfRange(_)) => 16,
        Err(Refusal::OutOfOrder) => 21,
        Err(Refusal::NoRoom) => 22,
        Err(Refusal::NotThere(_)) => 23,
        Err(Refusal::Misplaced(_)) => 25,
        Err(Refusal::WrongWayIn) => 26,
    }
}

// The third number of it: the byte or the field that it names; 0 where it names none.
pub fn third(answer: Result<(), Refusal>) -> usize
    ensures { result ≡ third_of answer }
{
    match answer {
        Err(Refusal::Misspelled(byte)) => byte,
        Err(
            Refusal::Misfilled(field)
            | Refusal::OutOfRange(field)
            | Refusal::NotThere(field)
            | Refusal::Misplaced(field),
        ) => field,
        Err(Refusal::WrongWayIn) => 2,
        _ => 0,
    }
}

// Three numbers.
fn numbers(first: usize, second: usize, third: usize) -> Told
    ensures { result ≡ numbers first second third }
{
    Told {
        result: first,
        second,
        third,
    }
}

// The numbers of a judgement.
impl From<Result<(), Rejection>> for Told {
    ghost from_gives = { λ judgement told. told ≡ numbers_of judgement };

    fn from(judgement: Result<(), Rejection>) -> Told {
        match judgement {
            Ok(()) => numbers(0, 0, 0),
            Err(Rejection::Unfinished(n)) => numbers(24, n, 0),
            Err(Rejection::WrongStart) => numbers(31, 0, 0),
            Err(Rejection::Unconnected(p, t)) => numbers(32, p.0, usize::from(t)),
            Err(Rejection::GuardFails(p, g)) => numbers(33, p.0, usize::from(g)),
            Err(Rejection::WrongMark(p, i)) => numbers(34, p.0, usize::from(i)),
            Err(Rejection::RootUnmarked(r)) => numbers(35, 0, usize::from(r)),
        }
    }
}

// The numbers of filling in the marks.
impl From<Result<(), NotFilled>> for Told {
    ghost from_gives = { λ filling told. told ≡ filling_numbers filling };

    fn from(filling: Result<(), NotFilled>) -> Told {
        match filling {
            Ok(()) => numbers(0, 0, 0),
            Err(NotFilled::Refused(rejection)) => Told::from(Err(rejection)),
            Err(NotFilled::Changes(p, i)) => numbers(37, p.0, usize::from(i)),
        }
    }
}

// The numbers of finding the rounds that a loop may have.
impl From<Result<(u32, u32), NoSpan>> for Told {
    ghost from_gives = { λ span told. told ≡ span_numbers span };

    fn from(span: Result<(u32, u32), NoSpan>) -> Told {
        match span {
            Ok((least, greatest)) => numbers(0, least as usize, greatest as usize),
            Err(NoSpan::Refused(rejection)) => Told::from(Err(rejection)),
            Err(NoSpan::NoLoop(k)) => numbers(27, k, 0),
        }
    }
}

// The numbers of setting a loop's rounds.
impl From<Result<(), NotSet>> for Told {
    ghost from_gives = { λ setting told. told ≡ setting_numbers setting };

    fn from(setting: Result<(), NotSet>) -> Told {
        match setting {
            Ok(()) => numbers(0, 0, 0),
            Err(NotSet::Unfinished(n)) => numbers(24, n, 0),
            Err(NotSet::NoLoop(k)) => numbers(27, k, 0),
            Err(NotSet::OutOfRange(r)) => numbers(16, r, 5),
        }
    }
}

// The numbers of what is written.
impl From<Result<usize, WriteError>> for Told {
    ghost from_gives = { λ written told. told ≡ written_numbers written };

    fn from(written: Result<usize, WriteError>) -> Told {
        match written {
            Ok(count) => numbers(0, count, 0),
            Err(WriteError::TooShort) => numbers(41, 0, 0),
        }
    }
}
