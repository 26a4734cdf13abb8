// The rounds of a place, and what is true throughout them: a sum that grows by the same with each round, against a bound; a row of that over the places, and
// a mark against it.
#![tactic(auto)]

ghost use Rattle.std.specs.Prelude.{◌≡◌, not, ◌||◌, ◌+◌, ◌-◌, ◌*◌, ◌<◌, ◌^◌};
ghost use Rattle.laws.specs.Sizes.{size};
ghost use Rattle.meaning.specs.Run.{stretch};
ghost use Rattle.meaning.specs.Truth.{bit};
ghost use Rattle.verdict.specs.declared.Rounds.TheVariants as rounds;
ghost use Rattle.verdict.specs.Rounds.{rounds_of, later, flag, agree, trend, side, course, overall, through};
ghost use Rattle.verdict.specs.Forward.{repeats};
ghost use Rattle.verdict.specs.Verdict.{is_always};
ghost use Rattle.rounds.specs.Last.{last_of};
ghost use Rattle.rounds.specs.Rows.{code_of, mark_code, agrees};

use items::{LoopMark, Room};
use verdict::{Course, Rounds, Side, Throughout, Trend};

// What a sentence is over the rounds of each place, as a code (0 past the places that are held), and whether its mark is another at some place. (A flag
// beside: the rows promise the codes where the marks agree too.)
#[derive(Clone, Copy)]
pub struct Row {
    pub at: [u8; Room::PLACES],
    pub off: bool,
}

// The number of places of a stretch.
pub fn stretch(m: LoopMark) -> usize
    ensures { result ≡ stretch m }
{
    match m {
        LoopMark::None => 1,
        LoopMark::Counted { length, .. } | LoopMark::Endless { length, .. } => usize::from(length),
    }
}

// The rounds of a stretch.
pub fn rounds_of(m: LoopMark) -> Rounds
    ensures { result ≡ rounds_of m }
{
    match m {
        LoopMark::None => Rounds::UpTo(0),
        LoopMark::Counted { rounds, .. } => Rounds::UpTo(rounds.saturating_sub(1)),
        LoopMark::Endless { .. } => Rounds::Ever,
    }
}

// How often a loop is gone through again before it is left.
pub fn repeats(m: LoopMark) -> u32
    ensures { result ≡ repeats m }
{
    match m {
        LoopMark::Counted { rounds, .. } => rounds.saturating_sub(1),
        LoopMark::None | LoopMark::Endless { .. } => 0,
    }
}

// All but the first of the rounds, counted from 0 again.
pub fn later(r: Rounds) -> Rounds
    ensures { result ≡ later r }
{
    match r {
        Rounds::None | Rounds::UpTo(0) => Rounds::None,
        Rounds::UpTo(k) => Rounds::UpTo(k - 1),
        Rounds::Ever => Rounds::Ever,
    }
}

// What doesn't look at the round.
pub fn flag(t: bool) -> Throughout
    ensures { result ≡ flag t }
{
    if t {
        Throughout::Always
    } else {
        Throughout::Never
    }
}

// What is the same in all rounds where it is the same in the first and in the last.
pub fn agree(a: bool, b: bool) -> Throughout
    ensures { result ≡ agree a b }
{
    if a == b { flag(a) } else { Throughout::Changes }
}

// Whether it is true throughout.
pub fn is_always(t: Throughout) -> bool
    ensures { result ≡ is_always t }
{
    matches!(t, Throughout::Always)
}

// The code of what is so throughout a place.
pub fn code(t: Throughout) -> u8
    ensures { result ≡ code_of t }
{
    match t {
        Throughout::Never => 0,
        Throughout::Always => 1,
        Throughout::Changes => 2,
    }
}

// The code of a sentence for which a mark is right.
pub fn mark_code(marked: bool) -> u8
    ensures { result ≡ mark_code marked }
{
    u8::from(marked)
}

// Whether a row is off, where it was before this place, or the mark of the place is another than the code says.
pub fn off_by(before: bool, code: u8, marked: bool) -> bool
    ensures { result ≡ (before || not (agrees code marked)) }
{
    before || code != mark_code(marked)
}

// Bit i of a set. (By `&&` judging a full case is 5 % slower.)
pub fn bit(n: u32, i: u8) -> bool
    ensures { result ≡ bit n i }
{
    if i < 32 {
        return (n >> u32::from(i)) % 2 == 1;
    }
    false
}

// How a sum goes to which each round adds d.
fn trend(d: i64) -> Trend
    ensures { result ≡ trend d }
{
    if 0 < d {
        Trend::Rises
    } else if d < 0 {
        Trend::Falls
    } else {
        Trend::Stays
    }
}

// Where a sum is to its bound b, where a is the sum the first time.
fn side(a: i64, b: i64) -> Side
    ensures { result ≡ side a b }
{
    if b <= a { Side::AtOrAbove } else { Side::Below }
}

// The table: how the truth of a guard goes, by how its sum goes and where it is the first time.
fn course(t: Trend, s: Side) -> Course
    ensures { result ≡ course t s }
{
    match (t, s) {
        (Trend::Rises, Side::AtOrAbove) => Course::AlwaysTrue, // rises from the bound or above
        (Trend::Rises, Side::Below) => Course::FalseThenTrue, // rises from below
        (Trend::Stays, Side::AtOrAbove) => Course::AlwaysTrue, // stays at the bound or above
        (Trend::Stays, Side::Below) => Course::AlwaysFalse, // stays below
        (Trend::Falls, Side::AtOrAbove) => Course::TrueThenFalse, // falls from the bound or above
        (Trend::Falls, Side::Below) => Course::AlwaysFalse, // falls from below
    }
}

// Over all rounds: it changes where it is first one and then the other.
fn overall(c: Course) -> Throughout
    ensures { result ≡ overall c }
{
    match c {
        Course::AlwaysTrue => Throughout::Always,
        Course::AlwaysFalse => Throughout::Never,
        Course::TrueThenFalse | Course::FalseThenTrue => Throughout::Changes,
    }
}

// A sum against its bound b, without end, by the table: a is the sum the first time, d what each round adds.
fn ever(a: i64, d: i64, b: i64) -> Throughout
    ensures { result ≡ through a d b rounds.Ever }
{
    overall(course(trend(d), side(a, b)))
}

// The same over any rounds, up to a last one by its ends.
pub fn through(a: i64, d: i64, b: i64, r: Rounds) -> Throughout
    requires { size a + last_of r * size d < 2 ^ 63 }
    ensures { result ≡ through a d b r }
{
    match r {
        Rounds::None => Throughout::Always,
        Rounds::UpTo(k) => {
            let last = a + i64::from(k) * d;
            agree(b <= a, b <= last)
        }
        Rounds::Ever => ever(a, d, b),
    }
}
