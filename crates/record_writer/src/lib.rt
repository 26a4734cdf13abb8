// The record of an item, written at the start of a lent part: all of it blank first, then each number over its field. (The part
// of the buffer from the record's start is lent on, as document 01 has it; an array of 58 bytes would ask more of callers.)
#![tactic(auto)]

ghost use Rattle.std.specs.Prelude.{◌≡◌, ◌∷◌, [], ◌++◌, map, ◌+◌, ◌≤◌, ◌<◌, ◌^◌, pos, length, drop, replicate};
ghost use Rattle.record.specs.declared.Content.TheVariants.{Number};
ghost use Rattle.record.specs.Spell.{Spellable, numeral, token};
ghost use Rattle.record.specs.Layout.{width, fields, record_length};
ghost use Rattle.kinds.specs.declared.Kind.TheVariants as kind;
ghost use Rattle.kinds.specs.Kinds.{counters};
ghost use Rattle.items.specs.Items.{number, integer, blank, reference, term_fields, mark_fields};
ghost use Rattle.items.specs.File.{CanSpell, record_bytes, item_bytes};
ghost use Rattle.record_writer.specs.Fields.{Put, fill_in, fill_from, HasRecord};

use items::{Form, Guard, LoopMark, Move, Place, Sentence, State, Term, Weights};
use kinds::{Kind, PerCounter};
use record::Record;

// Writes the digits of a number up to the end of the field at the start of a part, and tells where they begin.
fn write_digits(part: &mut [u8], n: u32) -> usize
    requires { (width ≤ length part.old) × (n < 10 ^ width) }
    ensures { Put part.old (numeral n) part.new result }
{
    let mut i = Record::WIDTH;
    let mut left = n;
    while 9 < left {
        i -= 1;
        part[i] = b'0' + (left % 10) as u8;
        left /= 10;
    }
    i -= 1;
    part[i] = b'0' + left as u8;
    i
}

// Writes a number up to the end of the field at the start of a part, and tells where it begins.
fn write_number(part: &mut [u8], x: i32) -> usize
    requires { (width ≤ length part.old) × Spellable x }
    ensures { Put part.old (token x) part.new result }
{
    let mut i = write_digits(part, x.unsigned_abs());
    if x < 0 {
        i -= 1;
        part[i] = b'-';
    }
    i
}

// Makes a record of a kind with all fields blank.
fn write_blank(part: &mut [u8], kind: Kind)
    requires { record_length ≤ length part.old }
    ensures { part.new ≡ record_bytes kind (replicate fields blank) ++ drop record_length part.old }
{
    part[..Record::LENGTH].fill(b' ');
    part[0] = kind.letter();
    part[Record::LENGTH - 1] = b'\n';
}

// Puts a number into field f of a record, counted from 1.
fn put_integer(part: &mut [u8], f: usize, x: i32)
    requires { (record_length ≤ length part.old) × (1 ≤ f) × (f ≤ fields) × Spellable x }
    ensures { part.new ≡ fill_in f (Number x) part.old }
{
    let a = 1 + (f - 1) * Record::WIDTH;
    write_number(&mut part[a..], x);
}

// Puts a number that is not below 0 into field f.
fn put_number(part: &mut [u8], f: usize, n: u32)
    requires { (record_length ≤ length part.old) × (1 ≤ f) × (f ≤ fields) × (n < 10 ^ width) }
    ensures { part.new ≡ fill_in f (Number (pos n)) part.old }
{
    put_integer(part, f, n as i32);
}

// Puts a reference into field f, which stays blank where it names nothing.
fn put_reference(part: &mut [u8], f: usize, to: Option<u8>)
    requires { (record_length ≤ length part.old) × (1 ≤ f) × (f ≤ fields) }
    ensures { part.new ≡ fill_in f (reference to).content part.old }
{
    if let Some(n) = to {
        put_number(part, f, u32::from(n));
    }
}

// Puts a number for each counter into the fields from `from` on.
fn put_counters(part: &mut [u8], from: usize, each: PerCounter)
    requires { (record_length ≤ length part.old) × (1 ≤ from) × (from + counters ≤ fields + 1) }
    ensures { part.new ≡ fill_from from (map integer each.at) part.old }
{
    for j in 0..PerCounter::COUNT {
        put_integer(part, from + j, i32::from(each.at[j]));
    }
}

// Puts the weight of each counter into the fields from the first on. (As one function with `put_counters` it would take a closure whose cast is proved at
// each call: no plainer.)
fn put_weights(part: &mut [u8], w: Weights)
    requires { (record_length ≤ length part.old) × CanSpell (map integer w.at) }
    ensures { part.new ≡ fill_from 1 (map integer w.at) part.old }
{
    for j in 0..PerCounter::COUNT {
        put_integer(part, 1 + j, w.at[j] as i32);
    }
}

// Puts a term into fields f and f + 1, which stay blank where there is none.
fn put_term(part: &mut [u8], f: usize, term: Option<Term>)
    requires { (record_length ≤ length part.old) × (1 ≤ f) × (f < fields) }
    ensures { part.new ≡ fill_from f (term_fields term) part.old }
{
    if let Some(term) = term {
        put_integer(part, f, i32::from(term.coefficient));
        put_number(part, f + 1, u32::from(term.sentence));
    }
}

// Puts the form of a sentence, by document 01's number, and up to two operands into the first three fields.
fn put_form(part: &mut [u8], form: u8, first: Option<u8>, second: Option<u8>)
    requires { record_length ≤ length part.old }
    ensures { part.new ≡ fill_from 1 (number form ∷ reference first ∷ reference second ∷ []) part.old }
{
    put_number(part, 1, u32::from(form));
    put_reference(part, 2, first);
    put_reference(part, 3, second);
}

// Puts the form of an until, what is held, its goal, its bound and its terms into the fields of a record.
fn put_until(
    part: &mut [u8],
    held: u8,
    goal: u8,
    bound: i32,
    term1: Option<Term>,
    term2: Option<Term>,
)
    requires { (record_length ≤ length part.old) × Spellable bound }
    ensures { part.new ≡ fill_from 1 (number 6 ∷ number held ∷ number goal ∷ integer bound ∷ (term_fields term1 ++ term_fields term2)) part.old }
{
    put_form(part, 6, Some(held), Some(goal));
    put_integer(part, 4, bound);
    put_term(part, 5, term1);
    put_term(part, 7, term2);
}

// Puts a loop mark into the fields from 4 on.
fn put_mark(part: &mut [u8], mark: LoopMark)
    requires { (record_length ≤ length part.old) × CanSpell (mark_fields mark) }
    ensures { part.new ≡ fill_from 4 (mark_fields mark) part.old }
{
    match mark {
        LoopMark::None => {}
        LoopMark::Counted {
            length,
            rounds,
            back,
        } => {
            put_number(part, 4, u32::from(length));
            put_number(part, 5, rounds);
            put_number(part, 6, u32::from(back));
        }
        LoopMark::Endless { length, back } => {
            put_number(part, 4, u32::from(length));
            put_number(part, 6, u32::from(back));
        }
    }
}

// Writes the record of a state.
pub fn write_state(part: &mut [u8], s: State)
    requires { (record_length ≤ length part.old) × HasRecord kind.State s }
    ensures { part.new ≡ item_bytes kind.State s ++ drop record_length part.old }
{
    write_blank(part, Kind::State);
    put_number(part, 1, u32::from(s.propositions));
}

// Writes the record of starting weights.
pub fn write_weights(part: &mut [u8], w: Weights)
    requires { (record_length ≤ length part.old) × HasRecord kind.Weights w }
    ensures { part.new ≡ item_bytes kind.Weights w ++ drop record_length part.old }
{
    write_blank(part, Kind::Weights);
    put_weights(part, w);
}

// Writes the record of a guard.
pub fn write_guard(part: &mut [u8], g: Guard)
    requires { (record_length ≤ length part.old) × HasRecord kind.Guard g }
    ensures { part.new ≡ item_bytes kind.Guard g ++ drop record_length part.old }
{
    write_blank(part, Kind::Guard);
    put_counters(part, 1, g.coefficients);
    put_integer(part, 1 + PerCounter::COUNT, g.bound);
}

// Writes the record of a move.
pub fn write_move(part: &mut [u8], m: Move)
    requires { (record_length ≤ length part.old) × HasRecord kind.Move m }
    ensures { part.new ≡ item_bytes kind.Move m ++ drop record_length part.old }
{
    write_blank(part, Kind::Move);
    put_number(part, 1, u32::from(m.from));
    put_number(part, 2, u32::from(m.to));
    put_counters(part, 3, m.updates);
    put_reference(part, 3 + PerCounter::COUNT, m.guard1);
    put_reference(part, 4 + PerCounter::COUNT, m.guard2);
}

// Writes the record of a sentence.
pub fn write_sentence(part: &mut [u8], s: Sentence)
    requires { (record_length ≤ length part.old) × HasRecord kind.Sentence s }
    ensures { part.new ≡ item_bytes kind.Sentence s ++ drop record_length part.old }
{
    write_blank(part, Kind::Sentence);
    match s.form {
        Form::True => put_form(part, 0, None, None),
        Form::Proposition(p) => put_form(part, 1, Some(p), None),
        Form::Guard(g) => put_form(part, 2, Some(g), None),
        Form::And(a, b) => put_form(part, 3, Some(a), Some(b)),
        Form::Not(a) => put_form(part, 4, Some(a), None),
        Form::Next(a) => put_form(part, 5, Some(a), None),
        Form::Until {
            held,
            goal,
            bound,
            term1,
            term2,
        } => put_until(part, held, goal, bound, term1, term2),
    }
}

// Writes the record of a place.
pub fn write_place(part: &mut [u8], p: Place)
    requires { (record_length ≤ length part.old) × HasRecord kind.Place p }
    ensures { part.new ≡ item_bytes kind.Place p ++ drop record_length part.old }
{
    write_blank(part, Kind::Place);
    put_number(part, 1, u32::from(p.state));
    put_reference(part, 2, p.way);
    put_number(part, 3, p.marks);
    put_mark(part, p.mark);
}
