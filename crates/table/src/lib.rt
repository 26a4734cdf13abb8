// What each kind of record needs, may have and allows in each field.
#![tactic(auto)]

ghost use Rattle.std.specs.Prelude.{◌≡◌, ◌∷◌, ◌-◌, ◌<◌, replicate};
ghost use Rattle.laws.specs.Lists.{nth};
ghost use Rattle.kinds.specs.Kinds.{counters};
ghost use Rattle.table.specs.declared.Rule.TheVariants as rule;
ghost use Rattle.table.specs.Sorts.{Form, range_of};
ghost use Rattle.table.specs.Table.{needed_if, shape_of, rule_at, state_row, weights_row, guard_row, move_row, sentence_row, place_row, in_filled};

use kinds::{Kind, PerCounter};
use record::Record;
use std::array;

// What the number in a field is: one within a range, a set of marks, or a reference to an item.
#[derive(Clone, Copy)]
pub enum Sort {
    Within(Range),
    Marks,
    Reference(Kind),
}

// What a field must be.
#[derive(Clone, Copy)]
pub enum Rule {
    Blank,
    Needed(Sort),
    Optional(Sort),
}

// The numbers from low to high.
#[derive(Clone, Copy)]
pub struct Range {
    pub low: i32,
    pub high: i32,
}

impl Sort {
    // The sorts that are within a range of their own.
    pub const PROPOSITIONS: Sort = Sort::Within(Range {
        low: 0,
        high: 65535,
    });

    pub const COEFFICIENT: Sort = Sort::Within(Range {
        low: -999,
        high: 999,
    });

    pub const BOUND: Sort = Sort::Within(Range {
        low: -999999,
        high: 9999999,
    });

    pub const WEIGHT: Sort = Sort::BOUND;

    pub const UPDATE: Sort = Sort::Within(Range {
        low: -9999,
        high: 9999,
    });

    pub const FORM: Sort = Sort::Within(Range { low: 0, high: 6 });

    pub const PROPOSITION: Sort = Sort::Within(Range { low: 0, high: 15 });

    pub const LOOP_LENGTH: Sort = Sort::Within(Range { low: 1, high: 64 });

    pub const ROUNDS: Sort = Sort::Within(Range {
        low: 1,
        high: 1000000,
    });
}

// Which fields are filled: 1 for a field that is, 0 for any other. (Eight bools would be packed into one word, which costs more.)
#[derive(Clone, Copy)]
pub struct Filled {
    pub at: [u32; Record::FIELDS],
}

// What decides the rules of a record's fields.
#[derive(Clone, Copy)]
pub struct Shape {
    pub kind: Kind,
    pub form: u32,
    pub filled: Filled,
}

// The numbers that a field of each sort allows.
pub fn range_of(sort: Sort) -> Range
    ensures { result ≡ range_of sort }
{
    match sort {
        Sort::Within(range) => range,
        Sort::Marks => Range {
            low: 0,
            high: 1048575,
        },
        Sort::Reference(_) => Range { low: 0, high: 63 },
    }
}

// The shape of a record of this kind.
#[tactic(auto, unfolding(crate::specs::Table::shape_of))]
pub fn shape_of(kind: Kind, row: Record) -> Shape
    ensures { result ≡ shape_of kind row }
{
    Shape {
        kind,
        form: kinds::natural_of(row.fields[0].content),
        filled: Filled {
            at: array::from_fn(|k| kinds::flag_of(row.fields[k].content)),
        },
    }
}

// A field that may be blank, but is needed where the test holds.
fn needed_if(needed: bool, sort: Sort) -> Rule
    ensures { result ≡ needed_if needed sort }
{
    if needed {
        Rule::Needed(sort)
    } else {
        Rule::Optional(sort)
    }
}

// The rules of each kind, for field k, counted from 1; x[j - 1] tells whether field j is filled. A state: its propositions.
fn state_rule(k: usize) -> Rule
    requires { 0 < k }
    ensures { result ≡ nth state_row k rule.Blank }
{
    match k {
        1 => Rule::Needed(Sort::PROPOSITIONS),
        _ => Rule::Blank,
    }
}

// Starting weights: one for each counter.
fn weights_rule(k: usize) -> Rule
    requires { 0 < k }
    ensures { result ≡ nth (weights_row counters) k rule.Blank }
{
    if k <= PerCounter::COUNT {
        Rule::Needed(Sort::WEIGHT)
    } else {
        Rule::Blank
    }
}

// A guard: a coefficient for each counter, then the bound.
fn guard_rule(k: usize) -> Rule
    requires { 0 < k }
    ensures { result ≡ nth (guard_row counters) k rule.Blank }
{
    if k <= PerCounter::COUNT {
        Rule::Needed(Sort::COEFFICIENT)
    } else if k == 1 + PerCounter::COUNT {
        Rule::Needed(Sort::BOUND)
    } else {
        Rule::Blank
    }
}

// A move: from, to, an update for each counter, two guards, the second only with the first.
fn move_rule(filled: Filled, k: usize) -> Rule
    requires { 0 < k }
    ensures { result ≡ nth (move_row counters (in_filled filled)) k rule.Blank }
{
    if k <= 2 {
        Rule::Needed(Sort::Reference(Kind::State))
    } else if k <= 2 + PerCounter::COUNT {
        Rule::Needed(Sort::UPDATE)
    } else if k == 3 + PerCounter::COUNT {
        needed_if(
            filled.at[4 + PerCounter::COUNT - 1] == 1,
            Sort::Reference(Kind::Guard),
        )
    } else if k == 4 + PerCounter::COUNT {
        Rule::Optional(Sort::Reference(Kind::Guard))
    } else {
        Rule::Blank
    }
}

// The rule of field k of a sentence whose fields after its form, up to the last, are of one sort.
fn parts_rule(last: usize, sort: Sort, k: usize) -> Rule
    requires { 0 < k }
    ensures { result ≡ nth (rule.Needed Form ∷ replicate (last - 1) (rule.Needed sort)) k rule.Blank }
{
    if k == 1 {
        Rule::Needed(Sort::FORM)
    } else if k <= last {
        Rule::Needed(sort)
    } else {
        Rule::Blank
    }
}

// An until: held sentence, goal, bound, up to two terms, each filled or blank as a pair.
fn until_rule(filled: Filled, k: usize) -> Rule
    requires { 0 < k }
    ensures { result ≡ nth (sentence_row 6 (in_filled filled)) k rule.Blank }
{
    let x = filled.at;
    match k {
        4 => Rule::Needed(Sort::BOUND),
        5 => needed_if(
            x[6 - 1] == 1 || x[7 - 1] == 1 || x[8 - 1] == 1,
            Sort::COEFFICIENT,
        ),
        6 => needed_if(
            x[5 - 1] == 1 || x[7 - 1] == 1 || x[8 - 1] == 1,
            Sort::Reference(Kind::Sentence),
        ),
        7 => needed_if(x[8 - 1] == 1, Sort::COEFFICIENT),
        8 => needed_if(x[7 - 1] == 1, Sort::Reference(Kind::Sentence)),
        _ => parts_rule(3, Sort::Reference(Kind::Sentence), k),
    }
}

// A sentence: its form, by document 01's number, then what the form asks for. (Called, it makes taking 40 % slower.)
#[inline(always)]
fn sentence_rule(form: u32, filled: Filled, k: usize) -> Rule
    requires { 0 < k }
    ensures { result ≡ nth (sentence_row form (in_filled filled)) k rule.Blank }
{
    match form {
        1 => parts_rule(2, Sort::PROPOSITION, k),
        2 => parts_rule(2, Sort::Reference(Kind::Guard), k),
        3 => parts_rule(3, Sort::Reference(Kind::Sentence), k),
        4 => parts_rule(2, Sort::Reference(Kind::Sentence), k),
        5 => parts_rule(2, Sort::Reference(Kind::Sentence), k),
        6 => until_rule(filled, k),
        _ => parts_rule(1, Sort::FORM, k),
    }
}

// A place: its state, the move into it, its marks, and a loop mark of length, rounds and back move.
fn place_rule(filled: Filled, k: usize) -> Rule
    requires { 0 < k }
    ensures { result ≡ nth (place_row (in_filled filled)) k rule.Blank }
{
    let x = filled.at;
    match k {
        1 => Rule::Needed(Sort::Reference(Kind::State)),
        2 => Rule::Optional(Sort::Reference(Kind::Move)),
        3 => Rule::Needed(Sort::Marks),
        4 => needed_if(x[5 - 1] == 1 || x[6 - 1] == 1, Sort::LOOP_LENGTH),
        5 => Rule::Optional(Sort::ROUNDS),
        6 => needed_if(x[4 - 1] == 1, Sort::Reference(Kind::Move)),
        _ => Rule::Blank,
    }
}

// The rule of field k, counted from 1. (Without its hint and that of `sentence_rule`, taking is 50 % slower.)
#[inline(always)]
#[tactic(auto, unfolding(crate::specs::Table::rule_at))]
pub fn rule_at(shape: Shape, k: usize) -> Rule
    requires { 0 < k }
    ensures { result ≡ rule_at shape k }
{
    match shape.kind {
        Kind::State => state_rule(k),
        Kind::Weights => weights_rule(k),
        Kind::Guard => guard_rule(k),
        Kind::Move => move_rule(shape.filled, k),
        Kind::Sentence => sentence_rule(shape.form, shape.filled, k),
        Kind::Place => place_rule(shape.filled, k),
    }
}
