// What can be wrong with a field, and the results that come from the input (11 to 16).
#![tactic(auto)]

ghost use Rattle.std.specs.Prelude.{◌≡◌, ◌^◌, ◌≤◌};
ghost use Rattle.record.specs.Layout.{fields};
ghost use Rattle.kinds.specs.Contents.{is_blank};
ghost use Rattle.checks.specs.Faults.{misspelled, bad_byte, missing, extra, beyond, outside, at_least, dangling, not_there, has_fault, lowest_fault, field_or_none, good, fault_free, faultless};
ghost use Rattle.checks.specs.Input.{wrong_form, bad_place, fields_answer, head_of};

use answers::Refusal;
use kinds::{Counts, Kind};
use record::{Content, Record};
use table::{Range, Rule, Shape, Sort};

// What can be wrong with a field.
#[derive(Clone, Copy)]
pub enum Fault {
    Misspelled,
    Missing,
    Extra,
    OutOfRange,
    NotThere(Counts),
}

// Neither blank nor a number.
fn is_misspelled(content: Content) -> bool
    ensures { result ≡ misspelled content }
{
    matches!(content, Content::Bad(_))
}

// Which byte of a field is bad, counted from 0; 0 where none is.
fn bad_byte(content: Content) -> u32
    ensures { result ≡ bad_byte content }
{
    if let Content::Bad(byte) = content {
        byte
    } else {
        0
    }
}

// Whether a field is blank.
pub fn is_blank(content: Content) -> bool
    ensures { result ≡ is_blank content }
{
    matches!(content, Content::Blank)
}

// Needed and blank.
fn is_missing(rule: Rule, content: Content) -> bool
    ensures { result ≡ missing rule content }
{
    matches!(rule, Rule::Needed(_)) && is_blank(content)
}

// Filled, and must be blank.
fn is_extra(rule: Rule, content: Content) -> bool
    ensures { result ≡ extra rule content }
{
    matches!(rule, Rule::Blank) && kinds::is_number(content)
}

// A number outside a range.
fn is_beyond(range: Range, content: Content) -> bool
    ensures { result ≡ beyond range content }
{
    matches!(content, Content::Number(x) if x < range.low || range.high < x)
}

// A number outside the range of its rule.
fn is_outside(rule: Rule, content: Content) -> bool
    ensures { result ≡ outside rule content }
{
    match rule {
        Rule::Blank => false,
        Rule::Needed(sort) | Rule::Optional(sort) => is_beyond(table::range_of(sort), content),
    }
}

// A number that is m or more.
fn is_at_least(m: usize, content: Content) -> bool
    ensures { result ≡ at_least m content }
{
    matches!(content, Content::Number(x) if 0 <= x && m <= x as usize)
}

// A set with a bit at or above n.
fn has_bit_from(n: usize, content: Content) -> bool
    ensures { result ≡ at_least (2 ^ n) content }
{
    let set = kinds::natural_of(content);
    n < 32 && 0 < set >> n
}

// A reference to an item that is not there, or a set with a mark at or above the number of sentences.
fn is_dangling(counts: Counts, sort: Sort, content: Content) -> bool
    ensures { result ≡ dangling counts sort content }
{
    match sort {
        Sort::Reference(kind) => is_at_least(counts.of(kind), content),
        Sort::Marks => has_bit_from(counts.sentences, content),
        Sort::Within(_) => false,
    }
}

// A number whose rule says that it refers to something, and it is not there.
fn is_not_there(counts: Counts, rule: Rule, content: Content) -> bool
    ensures { result ≡ not_there counts rule content }
{
    match rule {
        Rule::Blank => false,
        Rule::Needed(sort) | Rule::Optional(sort) => is_dangling(counts, sort, content),
    }
}

// Whether a field that says `content` has this fault.
fn has_fault(fault: Fault, rule: Rule, content: Content) -> bool
    ensures { result ≡ has_fault fault rule content }
{
    match fault {
        Fault::Misspelled => is_misspelled(content),
        Fault::Missing => is_missing(rule, content),
        Fault::Extra => is_extra(rule, content),
        Fault::OutOfRange => is_outside(rule, content),
        Fault::NotThere(counts) => is_not_there(counts, rule, content),
    }
}

// The lowest field with a fault, counted from 1.
pub fn lowest_fault(fault: Fault, shape: Shape, row: Record) -> Option<usize>
    ensures { result ≡ field_or_none (lowest_fault fault shape row) }
{
    for f in 1..=Record::FIELDS {
        if has_fault(fault, table::rule_at(shape, f), row.fields[f - 1].content) {
            return Some(f);
        }
    }
    None
}

// The place in the record of the bad byte of field f, counted from 1.
fn bad_place(row: Record, f: usize) -> usize
    requires { (1 ≤ f) × (f ≤ fields) }
    ensures { result ≡ bad_place row f }
{
    let at = f - 1;
    1 + at * Record::WIDTH + bad_byte(row.fields[at].content) as usize
}

// A sentence whose form is filled, but is none.
fn has_wrong_form(shape: Shape, row: Record) -> bool
    ensures { result ≡ wrong_form shape row }
{
    shape.kind.is(Kind::Sentence) && is_outside(Rule::Needed(Sort::FORM), row.fields[0].content)
}

// 14, 16 for a form, 15 and 16, in this order.
#[tactic(auto, unfolding(crate::specs::Input::range_answer, crate::specs::Input::extra_answer, crate::specs::Input::missing_answer, crate::specs::Input::form_answer, crate::specs::Input::fields_answer))]
pub fn fields_answer(shape: Shape, row: Record) -> Result<(), Refusal>
    ensures { result ≡ fields_answer shape row }
{
    if let Some(f) = lowest_fault(Fault::Misspelled, shape, row) {
        return Err(Refusal::Misspelled(bad_place(row, f)));
    }
    if has_wrong_form(shape, row) {
        return Err(Refusal::OutOfRange(1));
    }
    if let Some(f) = lowest_fault(Fault::Missing, shape, row) {
        return Err(Refusal::Misfilled(f));
    }
    if let Some(f) = lowest_fault(Fault::Extra, shape, row) {
        return Err(Refusal::Misfilled(f));
    }
    if let Some(f) = lowest_fault(Fault::OutOfRange, shape, row) {
        return Err(Refusal::OutOfRange(f));
    }
    Ok(())
}

// A number that is in the range of its sort, and refers to what is there.
fn is_good(counts: Counts, sort: Sort, content: Content) -> bool
    ensures { result ≡ good counts sort content }
{
    !is_beyond(table::range_of(sort), content)
        && !is_dangling(counts, sort, content)
        && kinds::is_number(content)
}

// A field that has no fault at all.
fn is_right(counts: Counts, rule: Rule, content: Content) -> bool
    ensures { result ≡ fault_free counts rule content }
{
    match rule {
        Rule::Blank => is_blank(content),
        Rule::Needed(sort) => is_good(counts, sort, content),
        Rule::Optional(sort) => is_blank(content) || is_good(counts, sort, content),
    }
}

// Whether no field has a fault: one pass for a record that is right. (What a field says is read out first: handed on in place, it takes longer.)
pub fn fits(counts: Counts, shape: Shape, row: Record) -> bool
    ensures { result ≡ faultless counts shape row }
{
    for f in 1..=Record::FIELDS {
        let content = row.fields[f - 1].content;
        if !is_right(counts, table::rule_at(shape, f), content) {
            return false;
        }
    }
    true
}

// The head of a record: 11, 12, 13.
#[tactic(auto, unfolding(crate::specs::Input::ended_head, crate::specs::Input::head_of))]
pub fn head_of(bytes: &[u8]) -> Result<Kind, Refusal>
    ensures { result ≡ head_of bytes.now }
{
    if bytes.len() != Record::LENGTH {
        return Err(Refusal::NotARecord);
    }
    if bytes[Record::LENGTH - 1] != b'\n' {
        return Err(Refusal::NoLineFeed);
    }
    kinds::kind_of(bytes[0]).ok_or(Refusal::NoSuchKind)
}
