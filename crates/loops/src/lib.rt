// The loops of a case by their numbers, in plan order: the rounds of one with which the case is accepted, and its rounds set.
#![tactic(auto)]

ghost use Rattle.std.specs.Prelude.{◌≡◌, ◌<◌, length};
ghost use Rattle.laws.specs.Halving.{is_next};
ghost use Rattle.meaning.specs.Rounds.{mark_with, with_rounds};
ghost use Rattle.meaning.specs.Spans.{begins, MayHave};
ghost use Rattle.verdict.specs.Span.{accepts_with, last_rounds, span_of, may_have};
ghost use Rattle.collector.specs.Cases.{items_of, case_of};
ghost use Rattle.collector.specs.Sound.{Sound};
ghost use Rattle.loops.specs.Planned.{set_case};
ghost use Rattle.loops.specs.Counted.{counted_loop, place_to_set};

use answers::{NoSpan, NotSet};
use collector::Case;
use items::LoopMark;

// A case, of whose plan a loop is looked at or altered.
#[derive(Clone, Copy)]
pub struct Plan {
    pub case: Case,
}

// The most rounds of a loop.
const MOST: u32 = 1000000;

// Whether a place with this loop mark begins a loop.
fn begins(mark: LoopMark) -> bool
    ensures { result ≡ begins mark }
{
    !matches!(mark, LoopMark::None)
}

// The first place and the rounds of loop k, where it is a counted one.
fn counted_loop(c: Case, k: usize) -> Option<(usize, u32)>
    requires { Sound c }
    ensures { result ≡ counted_loop (items_of c).places k }
{
    let mut left = k;
    for p in 0..c.count.places {
        let mark = c.places[p].mark;
        if begins(mark) {
            if left == 0 {
                return match mark {
                    LoopMark::Counted { rounds, .. } => Some((p, rounds)),
                    LoopMark::None | LoopMark::Endless { .. } => None,
                };
            }
            left -= 1;
        }
    }
    None
}

// A loop mark with n rounds, where it is counted.
fn mark_with(mark: LoopMark, n: u32) -> LoopMark
    ensures { result ≡ mark_with n mark }
{
    match mark {
        LoopMark::Counted { length, back, .. } => LoopMark::Counted {
            length,
            rounds: n,
            back,
        },
        LoopMark::None | LoopMark::Endless { .. } => mark,
    }
}

// A case with n rounds in the loop that place p begins.
fn with_rounds(mut c: Case, p: usize, n: u32) -> Case
    requires { (Sound c) × (p < length (items_of c).places) }
    ensures { result ≡ case_of (with_rounds (items_of c) p n) }
{
    c.places[p].mark = mark_with(c.places[p].mark, n);
    c
}

// Whether a case is accepted with n rounds in the loop that place p begins.
fn accepts_with(c: Case, p: usize, n: u32) -> bool
    requires { (Sound c) × (p < length (items_of c).places) × (MayHave n) }
    ensures { result ≡ accepts_with (items_of c) p n }
{
    judge::judge(with_rounds(c, p, n)).is_ok()
}

// Whether no number is between two.
fn is_next(a: u32, b: u32) -> bool
    requires { (MayHave a) × (MayHave b) }
    ensures { result ≡ is_next a b }
{
    a <= b + 1 && b <= a + 1
}

// The last rounds that are accepted from the n rounds of the loop that place p begins towards a limit, which is tried first; then by halving.
fn last_rounds(c: Case, p: usize, n: u32, limit: u32) -> u32
    requires { (Sound c) × (p < length (items_of c).places) × (MayHave n) × (MayHave limit) }
    ensures { result ≡ last_rounds (items_of c) p n limit }
{
    if accepts_with(c, p, limit) {
        return limit;
    }
    let mut good = n;
    let mut bad = limit;
    while !is_next(good, bad) {
        let m = (good + bad) / 2;
        if accepts_with(c, p, m) {
            good = m;
        } else {
            bad = m;
        }
    }
    good
}

// Whether a loop may have n rounds.
fn may_have(n: usize) -> bool
    ensures { result ≡ may_have n }
{
    1 <= n && n <= MOST as usize
}

// The first place of loop k, where n rounds may be set in it, and why not where they may not.
fn setting(c: Case, k: usize, n: usize) -> Result<usize, NotSet>
    requires { Sound c }
    ensures { result ≡ place_to_set (items_of c) k n }
{
    let total = c.count.total();
    if !judge::finished(c.count, c.loops) {
        return Err(NotSet::Unfinished(total));
    }
    let Some((p, _)) = counted_loop(c, k) else {
        return Err(NotSet::NoLoop(k));
    };
    if may_have(n) {
        return Ok(p);
    }
    Err(NotSet::OutOfRange(total - c.count.places + p))
}

impl Plan {
    // The least and the greatest rounds of loop k with which the case is accepted.
    pub fn span(self, k: usize) -> Result<(u32, u32), NoSpan>
        requires { Sound self.case }
        ensures { result ≡ span_of (items_of self.case) k }
    {
        let case = self.case;
        judge::judge(case)?;
        let Some((p, n)) = counted_loop(case, k) else {
            return Err(NoSpan::NoLoop(k));
        };
        Ok((last_rounds(case, p, n, 1), last_rounds(case, p, n, MOST)))
    }

    // Sets n rounds in loop k; where they can't be set, the case stays as it was.
    pub fn set(&mut self, k: usize, n: usize) -> Result<(), NotSet>
        requires { Sound self.old.case }
        ensures answer { result ≡ (set_case self.old.case k n).answer }
        ensures case { self.new.case ≡ (set_case self.old.case k n).case }
        ensures sound { Sound self.new.case }
    {
        let p = setting(self.case, k, n)?;
        self.case = with_rounds(self.case, p, n as u32);
        Ok(())
    }
}
