// The best sums of an until over the places of a plan, as numbers: a sum is itself, no sum is a number far below every sum, and sums without end are one
// far above. So a step is a sum and a maximum (max-plus). Each function is a definition of specs/Numbers.antt; specs/Shows.antt says that the numbers
// show what verdict's specs/Best.antt computes.
#![tactic(auto)]

ghost use Rattle.std.specs.Prelude.{◌≡◌, ◌+◌, ◌≤◌, ◌<◌, ◌^◌};
ghost use Rattle.laws.specs.Sizes.{size};
ghost use Rattle.kinds.specs.declared.Kind.TheVariants as kind;
ghost use Rattle.items.specs.Lists.{room_of};
ghost use Rattle.meaning.specs.Run.{stretch};
ghost use Rattle.verdict.specs.Rounds.{rounds_of};
ghost use Rattle.maxplus.specs.Numbers.{entry_at, choice_by, step_by, round_by, power_by, limit_by, around_by};
ghost use Rattle.maxplus.specs.Bounds.{FewRounds, Tame, Slight, small};

use collector::Case;
use items::LoopMark;

// What each place does to the best sum of the next: what stopping there gives, and what going on from there adds. (Two arrays: as one of pairs, judging a
// full case takes 5 % more instructions.)
#[derive(Clone, Copy)]
pub struct Steps {
    pub stops: [i64; Case::PLACES],
    pub goes: [i64; Case::PLACES],
}

// A round of a loop: the best within it, and the sum of all its places.
#[derive(Clone, Copy)]
pub struct Round {
    pub within: i64,
    pub sum: i64,
}

// The best sums at a place: in its first round and in its last.
#[derive(Clone, Copy)]
pub struct Ends {
    pub first: i64,
    pub last: i64,
}

// No sum. (A number, so that a step is a sum and a maximum with no case apart: the clauses of `choice`, `step` and `around` promise it.)
pub const NONE: i64 = -10000000000000000;
// Sums without end.
const ANY: i64 = 100000000000000;
// Less than any sum of a round or of a part of it.
const LEAST: i64 = -1000000;

// What a choice gives, where it can be made.
pub fn choice(can: bool, sum: i64) -> i64
    ensures { result ≡ choice_by can sum }
{
    if can { sum } else { NONE }
}

// The best at a place, where v is the best at the next.
pub fn step(stop: i64, go: i64, v: i64) -> i64
    requires { size go + size v < 2 ^ 63 }
    ensures { result ≡ step_by stop go v }
{
    stop.max(go + v)
}

// n rounds, and then v.
fn power(r: Round, n: u32, v: i64) -> i64
    requires { Slight r n v }
    ensures { result ≡ power_by r n v }
{
    if n == 0 {
        return v;
    }
    if r.sum < LEAST {
        return r.within;
    }
    let k = i64::from(n);
    let gain = r.sum.max(0);
    (r.within + (k - 1) * gain).max(v + k * r.sum)
}

// Rounds without end.
#[tactic(auto, unfolding(crate::specs::Numbers::limit_by))]
fn limit(r: Round) -> i64
    ensures { result ≡ limit_by r }
{
    if r.sum <= 0 || r.within < LEAST {
        r.within
    } else {
        ANY
    }
}

impl Steps {
    // A round of n places from p on.
    fn over(&self, p: usize, n: usize) -> Round
        requires { (p + n ≤ room_of kind.Place) × Tame (entry_at self.now.stops) (entry_at self.now.goes) }
        ensures { result ≡ round_by (entry_at self.now.stops) (entry_at self.now.goes) p n }
    {
        let mut within = NONE;
        let mut sum = 0;
        for i in (p..p + n).rev() {
            within = step(self.stops[i], self.goes[i], within);
            sum += self.goes[i];
        }
        Round { within, sum }
    }

    // After the last place of the stretch that place q begins, where v is the best after the stretch: in its first round, on into its later rounds; in its
    // last, out of it.
    pub fn around(&self, q: usize, mark: LoopMark, v: i64) -> Ends
        requires { (q + stretch mark ≤ room_of kind.Place) × ((Tame (entry_at self.now.stops) (entry_at self.now.goes)) × ((FewRounds (rounds_of mark)) × (size v ≤ small))) }
        ensures { result ≡ around_by (entry_at self.now.stops) (entry_at self.now.goes) q mark v }
    {
        match mark {
            LoopMark::None => Ends { first: v, last: v },
            LoopMark::Counted { length, .. } => {
                let r = self.over(q, usize::from(length));
                let w = power(r, rounds::repeats(mark), v);
                Ends { first: w, last: v }
            }
            LoopMark::Endless { length, .. } => {
                let w = limit(self.over(q, usize::from(length)));
                Ends { first: w, last: w }
            }
        }
    }
}
