// The items of a case, and what a record's fields become.
#![tactic(auto)]

ghost use Rattle.std.specs.Prelude.{◌≡◌, ◌+◌, ◌≤◌, ◌<◌};
ghost use Rattle.record.specs.Layout.{at, fields};
ghost use Rattle.kinds.specs.Kinds.{counters};
ghost use Rattle.items.specs.Items.{byte_of, integer_of, short_of, per_counter, ref_of, term_of, state_of, weights_of, guard_of, move_of, form_of, sentence_of, mark_of, place_of};

use kinds::PerCounter;
use record::{Content, Record};

// A state: the propositions that hold in it, as a bit set.
#[derive(Clone, Copy)]
pub struct State {
    pub propositions: u16,
}

// Starting weights (the initial valuation): each counter at the start, as wide as counters are.
#[derive(Clone, Copy)]
pub struct Weights {
    pub at: [i64; PerCounter::COUNT],
}

// A guard: the sum of coefficient times counter is at least the bound.
#[derive(Clone, Copy)]
pub struct Guard {
    pub coefficients: PerCounter,
    pub bound: i32,
}

// A move (a transition) between two states: what it adds to each counter, and up to two guards.
#[derive(Clone, Copy)]
pub struct Move {
    pub from: u8,
    pub to: u8,
    pub updates: PerCounter,
    pub guard1: Option<u8>,
    pub guard2: Option<u8>,
}

// A term of an until: a coefficient for each moment at which the sentence is true.
#[derive(Clone, Copy)]
pub struct Term {
    pub coefficient: i16,
    pub sentence: u8,
}

// The forms of sentences.
#[derive(Clone, Copy)]
pub enum Form {
    True,
    Proposition(u8),
    Guard(u8),
    And(u8, u8),
    Not(u8),
    Next(u8),
    Until {
        held: u8,
        goal: u8,
        bound: i32,
        term1: Option<Term>,
        term2: Option<Term>,
    },
}

// A sentence (a CLTL formula). (A struct around the enum, from when an array of enums could be
// no field of a struct.)
#[derive(Clone, Copy)]
pub struct Sentence {
    pub form: Form,
}

// Whether a place begins a loop, and which. (Document 01 names this form.)
#[derive(Clone, Copy)]
pub enum LoopMark {
    None,
    Counted { length: u8, rounds: u32, back: u8 },
    Endless { length: u8, back: u8 },
}

// A place (a state of the path schema): its state, the move into it, the sentences that it marks as true (the labelling), its loop mark.
#[derive(Clone, Copy)]
pub struct Place {
    pub state: u8,
    pub way: Option<u8>,
    pub marks: u32,
    pub mark: LoopMark,
}

// The number of a place, counted from 0.
#[derive(Clone, Copy)]
pub struct PlaceNo(pub usize);

// How many items of each kind a case has room for: constants alone.
#[derive(Clone, Copy)]
pub struct Room {}

impl Room {
    pub const STATES: usize = 32;

    pub const WEIGHTS: usize = 1;

    pub const GUARDS: usize = 32;

    pub const MOVES: usize = 64;

    pub const SENTENCES: usize = 20;

    pub const PLACES: usize = 64;
}

// The number of a field, cut to 8 bits.
fn byte_of(content: Content) -> u8
    ensures { result ≡ byte_of content }
{
    (kinds::natural_of(content) % 256) as u8
}

// The number of a field, and 0 of any other.
fn integer_of(content: Content) -> i32
    ensures { result ≡ integer_of content }
{
    match content {
        Content::Number(x) => x,
        _ => 0,
    }
}

// A number that 16 bits hold, and 0 for any other.
fn short_of(content: Content) -> i16
    ensures { result ≡ short_of (integer_of content) }
{
    i16::try_from(integer_of(content)).unwrap_or(0)
}

// A number for each counter, from field `from` on. (By `array::from_fn` its proof didn't close; nor that of `weights_of`.)
#[tactic(auto, unfolding(crate::specs::Items::per_counter))]
fn per_counter(row: Record, from: usize) -> PerCounter
    requires { (0 < from) × (from + counters ≤ fields + 1) }
    ensures { result ≡ per_counter row.fields from }
{
    let mut at = [0; PerCounter::COUNT];
    for j in 0..PerCounter::COUNT {
        at[j] = short_of(content_at(row, from + j));
    }
    PerCounter { at }
}

// A reference, none where the field is blank.
fn ref_of(content: Content) -> Option<u8>
    ensures { result ≡ ref_of content }
{
    match content {
        Content::Number(_) => Some(byte_of(content)),
        _ => None,
    }
}

// A term, of its coefficient and its sentence.
fn term_of(coefficient: Content, sentence: Content) -> Option<Term>
    ensures { result ≡ term_of coefficient sentence }
{
    match coefficient {
        Content::Number(_) => Some(Term {
            coefficient: short_of(coefficient),
            sentence: byte_of(sentence),
        }),
        _ => None,
    }
}

// What field k says, counted from 1.
pub fn content_at(row: Record, k: usize) -> Content
    requires { (0 < k) × (k ≤ fields) }
    ensures { result ≡ at row.fields k }
{
    row.fields[k - 1].content
}

// A state: its propositions.
#[tactic(auto, unfolding(crate::specs::Items::state_of))]
pub fn state_of(row: Record) -> State
    ensures { result ≡ state_of row.fields }
{
    State {
        propositions: (kinds::natural_of(content_at(row, 1)) % 65536) as u16,
    }
}

// Starting weights: one for each counter.
#[tactic(auto, unfolding(crate::specs::Items::weights_of))]
pub fn weights_of(row: Record) -> Weights
    ensures { result ≡ weights_of row.fields }
{
    let mut at = [0; PerCounter::COUNT];
    for j in 0..PerCounter::COUNT {
        at[j] = i64::from(integer_of(content_at(row, 1 + j)));
    }
    Weights { at }
}

// A guard: a coefficient for each counter, then the bound.
#[tactic(auto, unfolding(crate::specs::Items::guard_of))]
pub fn guard_of(row: Record) -> Guard
    ensures { result ≡ guard_of row.fields }
{
    Guard {
        coefficients: per_counter(row, 1),
        bound: integer_of(content_at(row, 1 + PerCounter::COUNT)),
    }
}

// A move: from, to, an update for each counter, two guards.
#[tactic(auto, unfolding(crate::specs::Items::move_of))]
pub fn move_of(row: Record) -> Move
    ensures { result ≡ move_of row.fields }
{
    Move {
        from: byte_of(content_at(row, 1)),
        to: byte_of(content_at(row, 2)),
        updates: per_counter(row, 3),
        guard1: ref_of(content_at(row, 3 + PerCounter::COUNT)),
        guard2: ref_of(content_at(row, 4 + PerCounter::COUNT)),
    }
}

// An until: held sentence, goal, bound, two terms.
#[tactic(auto, unfolding(crate::specs::Items::form_of))]
fn until_of(row: Record) -> Form
    ensures { result ≡ form_of 6 row.fields }
{
    Form::Until {
        held: byte_of(content_at(row, 2)),
        goal: byte_of(content_at(row, 3)),
        bound: integer_of(content_at(row, 4)),
        term1: term_of(content_at(row, 5), content_at(row, 6)),
        term2: term_of(content_at(row, 7), content_at(row, 8)),
    }
}

// The sentence of a form. (A number: document 01 numbers the forms, and the clause speaks of every number that a field may have.)
#[tactic(auto, unfolding(crate::specs::Items::form_of))]
fn form_of(form: u32, row: Record) -> Form
    ensures { result ≡ form_of form row.fields }
{
    let operand = byte_of(content_at(row, 2));
    match form {
        1 => Form::Proposition(operand),
        2 => Form::Guard(operand),
        3 => Form::And(operand, byte_of(content_at(row, 3))),
        4 => Form::Not(operand),
        5 => Form::Next(operand),
        6 => until_of(row),
        _ => Form::True,
    }
}

// A sentence: its form, and what the form asks for.
#[tactic(auto, unfolding(crate::specs::Items::sentence_of))]
pub fn sentence_of(row: Record) -> Sentence
    ensures { result ≡ sentence_of row.fields }
{
    Sentence {
        form: form_of(kinds::natural_of(content_at(row, 1)), row),
    }
}

// A loop mark, of its length, its rounds and its back move.
#[tactic(auto, unfolding(crate::specs::Items::mark_of))]
fn mark_of(length: Content, rounds: Content, back: Content) -> LoopMark
    ensures { result ≡ mark_of length rounds back }
{
    let l = byte_of(length);
    let b = byte_of(back);
    match (length, rounds) {
        (Content::Number(_), Content::Blank) => LoopMark::Endless { length: l, back: b },
        (Content::Number(_), Content::Number(_)) => LoopMark::Counted {
            length: l,
            rounds: kinds::natural_of(rounds),
            back: b,
        },
        _ => LoopMark::None,
    }
}

// A place: its state, the move into it, its marks, its loop mark.
#[tactic(auto, unfolding(crate::specs::Items::place_of))]
pub fn place_of(row: Record) -> Place
    ensures { result ≡ place_of row.fields }
{
    Place {
        state: byte_of(content_at(row, 1)),
        way: ref_of(content_at(row, 2)),
        marks: kinds::natural_of(content_at(row, 3)),
        mark: mark_of(content_at(row, 4), content_at(row, 5), content_at(row, 6)),
    }
}
