// The marks of a case filled in: the case with the right ones, whatever its own, or why there are none.
#![tactic(auto)]

ghost use Rattle.std.specs.Prelude.{◌≡◌, ◌+◌, ◌*◌, ◌≤◌, ◌<◌, ◌^◌, get_or};
ghost use Rattle.laws.specs.Tab.{tab};
ghost use Rattle.kinds.specs.declared.Kind.TheVariants as kind;
ghost use Rattle.items.specs.Lists.{room_of};
ghost use Rattle.meaning.specs.Marking.{with_marks};
ghost use Rattle.collector.specs.Cases.{items_of, case_of};
ghost use Rattle.collector.specs.Sound.{Sound};
ghost use Rattle.fill.specs.Filled.{marks_by, change_in, place_below, filled_case};

use answers::NotFilled;
use collector::Case;
use items::PlaceNo;
use marks::Off;
use rounds::Row;
use tables::Tables;

// A case whose marks are to be filled in.
#[derive(Clone, Copy)]
pub struct Draft {
    pub case: Case,
}

// Marks for each place.
#[derive(Clone, Copy)]
struct Marks {
    at: [u32; Case::PLACES],
}

impl Marks {
    // The marks with those of sentence i, which isn't marked yet, as its row says.
    fn with_row(self, i: u32, row: Row) -> Marks
        requires { (i < 32) × ((p : _) → p < room_of kind.Place → get_or self.at p 0 + get_or row.at p 0 * 2 ^ i < 2 ^ 32) }
        ensures { result.at ≡ tab (room_of kind.Place) 0 (λ p. get_or self.at p 0 + get_or row.at p 0 * 2 ^ i) }
    {
        let mut marks = [0; Case::PLACES];
        for p in 0..Case::PLACES {
            marks[p] = self.at[p] + (u32::from(row.at[p]) << i);
        }
        Marks { at: marks }
    }
}

// A case with these marks.
fn with_marks(mut c: Case, marks: Marks) -> Case
    requires { Sound c }
    ensures { result ≡ case_of (with_marks (items_of c) (marks_by marks)) }
{
    for p in 0..c.count.places {
        c.places[p].marks = marks.at[p];
    }
    c
}

// The first of n places at which a sentence of this row changes.
fn change_in(row: Row, n: usize) -> Option<usize>
    requires { n ≤ room_of kind.Place }
    ensures { result ≡ place_below (change_in row n) n }
{
    for p in 0..n {
        if row.at[p] == 2 {
            return Some(p);
        }
    }
    None
}

impl Draft {
    // Sentence by sentence, each by the marks of those below: where one isn't marked as it is, it is put right, or told where its truth changes, and then
    // the case stays as it was.
    pub fn fill(&mut self) -> Result<(), NotFilled>
        requires { Sound self.old.case }
        ensures answer { result ≡ (filled_case self.old.case).answer }
        ensures case { self.new.case ≡ (filled_case self.old.case).case }
        ensures sound { Sound self.new.case }
    {
        let case = self.case;
        let tables = Tables::of(case);
        judge::before_marks(case, tables)?;
        let n = case.count.places;
        let mut marks = Marks {
            at: [0; Case::PLACES],
        };
        let mut c = with_marks(case, marks);
        let mut off = marks::first_off(c, tables, 0);
        while let Some(Off { sentence: i, row }) = off {
            if let Some(p) = change_in(row, n) {
                return Err(NotFilled::Changes(PlaceNo(p), i as u8));
            }
            marks = marks.with_row(i as u32, row);
            c = with_marks(case, marks);
            off = marks::first_off(c, tables, i + 1);
        }
        self.case = c;
        Ok(())
    }
}
