// What each sentence is over the rounds of each place, by the marks of the sentences below; and the first wrong mark: the marks against that.
#![tactic(auto)]

ghost use Rattle.std.specs.Prelude.{◌≡◌, cond, suc, ◌+◌, ◌≤◌, ◌<◌, leb};
ghost use Rattle.kinds.specs.declared.Kind.TheVariants as kind;
ghost use Rattle.collector.specs.Cases.{items_of};
ghost use Rattle.items.specs.Lists.{room_of};
ghost use Rattle.rules.specs.Rules.{Closed};
ghost use Rattle.collector.specs.Sound.{Sound};
ghost use Rattle.meaning.specs.Run.{stretch};
ghost use Rattle.meaning.specs.Judged.{start_of, marks_of};
ghost use Rattle.verdict.specs.Rounds.{rounds_of, flag};
ghost use Rattle.verdict.specs.Verdict.{first_not, next_by, next_through, mark_right};
ghost use Rattle.rounds.specs.Rows.{row_of, wrong_in};
ghost use Rattle.tables.specs.Tables.{firsts_of, tables_of};
ghost use Rattle.marks.specs.Wrong.{same_always, simple_through, first_off_from, told_mark};

use collector::Case;
use items::{Form, LoopMark, PlaceNo};
use rounds::Row;
use tables::{Firsts, Tables};
use verdict::{Rounds, Throughout};

// A sentence that is off, with its row.
#[derive(Clone, Copy)]
pub struct Off {
    pub sentence: usize,
    pub row: Row,
}

// Next at the last place of a stretch, by its marks at the first place and after it.
fn next_by(r: Rounds, again: bool, out: bool) -> Throughout
    ensures { result ≡ next_by r again out }
{
    match r {
        Rounds::None => rounds::flag(out),
        Rounds::UpTo(k) => {
            if k == 0 {
                return rounds::flag(out);
            }
            rounds::agree(again, out)
        }
        Rounds::Ever => rounds::flag(again),
    }
}

// Next at place p of a stretch that begins with place q.
fn next_through(p: usize, q: usize, mark: LoopMark, again: bool, out: bool) -> Throughout
    requires { (p < room_of kind.Place) × (q + stretch mark ≤ room_of kind.Place) }
    ensures { result ≡ cond (leb (q + stretch mark) (suc p)) (next_by (rounds_of mark) again out) (flag out) }
{
    if q + rounds::stretch(mark) <= p + 1 {
        return next_by(rounds::rounds_of(mark), again, out);
    }
    rounds::flag(out)
}

// The row of sentence i, next a: from the last place to the first. (A loop of its own: a closure's clause can't say what it carries along.)
fn next_row(c: Case, firsts: Firsts, i: u8, a: u8) -> Row
    requires { (Sound c) × (firsts ≡ firsts_of (items_of c).places) }
    ensures { result ≡ row_of (items_of c) i (next_through (items_of c) a) }
{
    // an array of its own: where a loop reads c itself, all of it is copied
    let places = c.places;
    let mut row = [0u8; Case::PLACES];
    let mut off = false;
    let mut out = false;
    for p in (0..c.count.places).rev() {
        let q = firsts.at[p] as usize;
        let first = places[q];
        let here = places[p];
        let t = next_through(p, q, first.mark, rounds::bit(first.marks, a), out);
        let code = rounds::code(t);
        row[p] = code;
        off = rounds::off_by(off, code, rounds::bit(here.marks, i));
        out = rounds::bit(here.marks, a);
    }
    Row { at: row, off }
}

// A sentence that is the same in every round, at a place with these propositions and marks.
fn same_always(form: Form, propositions: u16, marks: u32) -> bool
    ensures { result ≡ same_always form propositions marks }
{
    match form {
        Form::True => true,
        Form::Proposition(v) => rounds::bit(u32::from(propositions), v),
        Form::And(a, b) => rounds::bit(marks, a) && rounds::bit(marks, b),
        Form::Not(a) => !rounds::bit(marks, a),
        Form::Guard(_) | Form::Next(_) | Form::Until { .. } => false,
    }
}

// The row of sentence i, such a sentence. (As `guard_row`; a closure would be called once for each place, and its clause said again.)
fn simple_row(c: Case, i: u8, form: Form) -> Row
    requires { Sound c }
    ensures { result ≡ row_of (items_of c) i (simple_through (items_of c) form) }
{
    // arrays of their own, as in `next_row`
    let states = c.states;
    let places = c.places;
    let mut row = [0u8; Case::PLACES];
    let mut off = false;
    for p in 0..c.count.places {
        let place = places[p];
        let s = place.state as usize;
        let code = rounds::mark_code(same_always(form, states[s].propositions, place.marks));
        row[p] = code;
        off = rounds::off_by(off, code, rounds::bit(place.marks, i));
    }
    Row { at: row, off }
}

// The first sentence from number `start` on that is marked at some place otherwise than it is there, by the marks of the sentences below; with its row.
// Judging stops at it, and filling in the marks puts it right.
pub fn first_off(c: Case, t: Tables, start: usize) -> Option<Off>
    requires { (Sound c) × (t ≡ tables_of (items_of c)) × (Closed (items_of c)) }
    ensures { result ≡ first_off_from (items_of c) start }
{
    // an array of its own, as in `next_row`
    let sentences = c.sentences;
    for i in start..c.count.sentences {
        let form = sentences[i].form;
        let k = i as u8;
        let row = match form {
            Form::True | Form::Proposition(_) | Form::And(_, _) | Form::Not(_) => {
                simple_row(c, k, form)
            }
            Form::Guard(g) => guards::guard_row(c, t, k, g),
            Form::Next(a) => next_row(c, t.firsts, k, a),
            Form::Until {
                held,
                goal,
                bound,
                term1,
                term2,
            } => untils::until_row(c, t.firsts, k, held, goal, bound, term1, term2),
        };
        if row.off {
            return Some(Off { sentence: i, row });
        }
    }
    None
}

// The first place at which sentence i is marked otherwise than its row says. (No Option: it is asked only where there is one.)
fn wrong_in(c: Case, i: u8, row: Row) -> usize
    requires { Sound c }
    ensures { result ≡ wrong_in (items_of c) i row }
{
    for p in 0..c.count.places {
        if row.at[p] != rounds::mark_code(rounds::bit(c.places[p].marks, i)) {
            return p;
        }
    }
    c.count.places
}

// The first wrong mark: by sentence, then by place.
pub fn wrong_mark(c: Case, t: Tables) -> Option<(PlaceNo, u8)>
    requires { (Sound c) × (t ≡ tables_of (items_of c)) × (Closed (items_of c)) }
    ensures { result ≡ told_mark (first_not (mark_right (items_of c) (start_of (items_of c))) (marks_of (items_of c))) }
{
    let off = first_off(c, t, 0)?;
    let i = off.sentence as u8;
    Some((PlaceNo(wrong_in(c, i, off.row)), i))
}
