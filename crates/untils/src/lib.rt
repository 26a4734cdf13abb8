// The row of an until.
#![tactic(auto)]

ghost use Rattle.std.specs.Prelude.{◌≡◌};
ghost use Rattle.collector.specs.Cases.{items_of};
ghost use Rattle.collector.specs.Sound.{Sound};
ghost use Rattle.meaning.specs.Truth.{bit};
ghost use Rattle.meaning.specs.Judged.{marked};
ghost use Rattle.verdict.specs.Labels.{worth, label_of};
ghost use Rattle.rounds.specs.Rows.{row_of};
ghost use Rattle.tables.specs.Tables.{firsts_of};
ghost use Rattle.untils.specs.Sums.{untils_of, steps_of, Mild};

use collector::Case;
use items::Term;
use maxplus::Steps;
use rounds::Row;
use tables::Firsts;

// What a term adds at a place with these marks.
fn worth(marks: u32, t: Option<Term>) -> i16
    ensures { result ≡ worth (bit marks) t }
{
    match t {
        Some(term) if rounds::bit(marks, term.sentence) => term.coefficient,
        _ => 0,
    }
}

// What each place does to the best sum of an until of these sentences and terms.
fn steps_of(c: Case, a: u8, b: u8, t: Option<Term>, u: Option<Term>) -> Steps
    requires { Sound c }
    ensures { result ≡ steps_of (label_of (marked (items_of c)) a b t u) }
{
    let places = c.places;
    let mut stops = [maxplus::NONE; Case::PLACES];
    let mut goes = [maxplus::NONE; Case::PLACES];
    for p in 0..c.count.places {
        let marks = places[p].marks;
        let gain = i64::from(worth(marks, t)) + i64::from(worth(marks, u));
        stops[p] = maxplus::choice(rounds::bit(marks, b), 0);
        goes[p] = maxplus::choice(rounds::bit(marks, a), gain);
    }
    Steps { stops, goes }
}

// The row of sentence i, such an until (a loop of its own, as each form has): from the last place to the first, by the best sums in its first round and in its last.
pub fn until_row(
    c: Case,
    firsts: Firsts,
    i: u8,
    a: u8,
    b: u8,
    bound: i32,
    t: Option<Term>,
    u: Option<Term>,
) -> Row
    requires { (Sound c) × ((firsts ≡ firsts_of (items_of c).places) × ((Mild t) × (Mild u))) }
    ensures { result ≡ row_of (items_of c) i (untils_of (items_of c) (label_of (marked (items_of c)) a b t u) bound) }
{
    // an array of its own: where a loop reads c itself, all of it is copied
    let places = c.places;
    let steps = steps_of(c, a, b, t, u);
    let z = i64::from(bound);
    let mut row = [0u8; Case::PLACES];
    let mut off = false;
    let mut first = maxplus::NONE;
    let mut last = maxplus::NONE;
    for p in (0..c.count.places).rev() {
        let q = usize::from(firsts.at[p]);
        let mark = places[q].mark;
        if q + rounds::stretch(mark) <= p + 1 {
            let ends = steps.around(q, mark, first);
            first = ends.first;
            last = ends.last;
        }
        first = maxplus::step(steps.stops[p], steps.goes[p], first);
        last = maxplus::step(steps.stops[p], steps.goes[p], last);
        let code = rounds::code(rounds::agree(z <= first, z <= last));
        row[p] = code;
        off = rounds::off_by(off, code, rounds::bit(places[p].marks, i));
    }
    Row { at: row, off }
}
