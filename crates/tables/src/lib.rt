// What judging knows of each place of a plan: the first place of its stretch, and the counters in its first round.
#![tactic(auto)]

ghost use Rattle.std.specs.Prelude.{◌≡◌};
ghost use Rattle.counters.specs.Vectors.{vec_of};
ghost use Rattle.collector.specs.Cases.{items_of};
ghost use Rattle.collector.specs.Sound.{Sound};
ghost use Rattle.meaning.specs.Judged.{start_of};
ghost use Rattle.tables.specs.Tables.{tables_of};

use collector::Case;
use counters::Counters;

// The first place of the stretch of each place that is held.
#[derive(Clone, Copy)]
pub struct Firsts {
    pub at: [u8; Case::PLACES],
}

// A value for each counter, at each place.
#[derive(Clone, Copy)]
pub struct Table {
    pub at: [Counters; Case::PLACES],
}

// What is known of each place.
#[derive(Clone, Copy)]
pub struct Tables {
    pub firsts: Firsts,
    pub bases: Table,
}

// The counters at the start: the starting weights, and 0 where there are none.
fn start(c: Case) -> Counters
    requires { Sound c }
    ensures { result ≡ vec_of (start_of (items_of c)) }
{
    Counters {
        at: c.weights[0].at,
    }
}

impl Tables {
    // Those of a case, place by place: each way adds its updates, and at the end of a loop each further round adds its drift.
    pub fn of(c: Case) -> Tables
        requires { Sound c }
        ensures { result ≡ tables_of (items_of c) }
    {
        // arrays of their own: where a loop reads c itself, all of it is copied
        let moves = c.moves;
        let places = c.places;
        let drifts = c.drifts;
        let mut firsts = [0u8; Case::PLACES];
        let mut bases = [counters::zero(); Case::PLACES];
        let mut v = start(c);
        let mut q = 0;
        for p in 0..c.count.places {
            let t = collector::slot(places[p].way);
            if t < Case::MOVES {
                v = counters::plus(v, moves[t].updates);
            }
            firsts[p] = q as u8;
            bases[p] = v;
            let mark = places[q].mark;
            if q + rounds::stretch(mark) <= p + 1 {
                v = counters::more(v, i64::from(rounds::repeats(mark)), drifts[q]);
                q = p + 1;
            }
        }
        Tables {
            firsts: Firsts { at: firsts },
            bases: Table { at: bases },
        }
    }
}
