// A guard over rounds, for those on ways and those of sentences alike, and the row of a sentence of a guard.
#![tactic(auto)]

ghost use Rattle.std.specs.Prelude.{◌≡◌, cond, ◌+◌, ◌<◌, ◌^◌, pos, ◌+ℤ◌};
ghost use Rattle.laws.specs.Sizes.{size};
ghost use Rattle.rules.specs.Rules.{Closed};
ghost use Rattle.collector.specs.Cases.{items_of};
ghost use Rattle.collector.specs.Sound.{Sound};
ghost use Rattle.meaning.specs.Run.{guard_at};
ghost use Rattle.meaning.specs.Judged.{start_of};
ghost use Rattle.verdict.specs.Verdict.{guard_through};
ghost use Rattle.rounds.specs.Rows.{row_of};
ghost use Rattle.tables.specs.Tables.{tables_of};
ghost use Rattle.guards.specs.GuardSums.{SumsFit, through_by};

use collector::Case;
use counters::Counters;
use items::Guard;
use kinds::PerCounter;
use rounds::Row;
use tables::Tables;
use verdict::{Rounds, Throughout};

// The sum of a guard in the first of the rounds: a at first, and one round later d more.
fn first_sum(a: i64, d: i64, later: bool) -> i64
    requires { size a + size d < 2 ^ 63 }
    ensures { result ≡ a +ℤ cond later d (pos 0) }
{
    if later { a + d } else { a }
}

// A guard over rounds, where its counters are those of the base in the first round of the place, and each round adds the drift. The rounds are all of the
// place, or those from the second on.
pub fn guard_through(
    g: Guard,
    base: Counters,
    drift: Counters,
    later: bool,
    rounds: Rounds,
) -> Throughout
    requires { SumsFit g base drift rounds }
    ensures { result ≡ through_by g base drift later rounds }
{
    let a = counters::dot(g.coefficients, base);
    let d = counters::dot(g.coefficients, drift);
    let first = first_sum(a, d, later);
    rounds::through(first, d, i64::from(g.bound), rounds)
}

// A guard, and one that is always true where there is none.
fn guard_at(c: Case, g: u8) -> Guard
    requires { Sound c }
    ensures { result ≡ guard_at (items_of c).guards g }
{
    let guards = c.guards;
    let i = usize::from(g);
    if i < Case::GUARDS {
        return guards[i];
    }
    Guard {
        coefficients: PerCounter {
            at: [0; PerCounter::COUNT],
        },
        bound: 0,
    }
}

// The row of sentence i, guard g. (A loop of its own, as each form has.)
pub fn guard_row(c: Case, t: Tables, i: u8, g: u8) -> Row
    requires { (Sound c) × (t ≡ tables_of (items_of c)) × (Closed (items_of c)) }
    ensures { result ≡ row_of (items_of c) i (guard_through (items_of c) (start_of (items_of c)) (guard_at (items_of c).guards g)) }
{
    let guard = guard_at(c, g);
    // arrays of their own: where a loop reads c itself, all of it is copied
    let places = c.places;
    let drifts = c.drifts;
    let firsts = t.firsts;
    let bases = t.bases;
    let mut row = [0; Case::PLACES];
    let mut off = false;
    for p in 0..c.count.places {
        let q = usize::from(firsts.at[p]);
        let rounds = rounds::rounds_of(places[q].mark);
        let code = rounds::code(guard_through(guard, bases.at[p], drifts[q], false, rounds));
        row[p] = code;
        off = rounds::off_by(off, code, rounds::bit(places[p].marks, i));
    }
    Row { at: row, off }
}
