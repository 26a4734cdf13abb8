// Whether a record may stand after what is held: the results that come from the state (21 to 26), after those of its fields.
#![tactic(auto)]

ghost use Rattle.std.specs.Prelude.{◌≡◌, ◌+◌, ◌≤◌, ◌<◌, ◌^◌, OnOk};
ghost use Rattle.kinds.specs.declared.Kind.TheVariants as kind;
ghost use Rattle.kinds.specs.Kinds.{count_of};
ghost use Rattle.table.specs.Table.{shape_of};
ghost use Rattle.items.specs.Lists.{room_of};
ghost use Rattle.checks.specs.declared.Fault.TheVariants as fault;
ghost use Rattle.checks.specs.Faults.{lowest_fault, field_or_none};
ghost use Rattle.standing.specs.Standing.{loops_after, is_closed, is_loop_end, is_barred, way_answer, place_answer, layout_answer, order_answer, record_answer};

use answers::Refusal;
use checks::Fault;
use items::{LoopMark, PlaceNo, Room};
use kinds::{Counts, Kind};
use record::Record;

// The last loop so far: its first place and the place after it (both 0 where there is no loop), and whether it is endless. It follows from the places.
#[derive(Clone, Copy)]
pub struct Loops {
    pub first: PlaceNo,
    pub end: PlaceNo,
    pub endless: bool,
}

// How many items of a kind a case has room for.
fn room_of(kind: Kind) -> usize
    ensures { result ≡ room_of kind }
{
    match kind {
        Kind::State => Room::STATES,
        Kind::Weights => Room::WEIGHTS,
        Kind::Guard => Room::GUARDS,
        Kind::Move => Room::MOVES,
        Kind::Sentence => Room::SENTENCES,
        Kind::Place => Room::PLACES,
    }
}

impl Loops {
    // The loops after place n, with this mark.
    pub fn after(self, n: usize, mark: LoopMark) -> Loops
        requires { n + 255 < 2 ^ 64 }
        ensures { result ≡ loops_after self n mark }
    {
        match mark {
            LoopMark::None => self,
            LoopMark::Counted { length, .. } => Loops {
                first: PlaceNo(n),
                end: PlaceNo(n + length as usize),
                endless: false,
            },
            LoopMark::Endless { length, .. } => Loops {
                first: PlaceNo(n),
                end: PlaceNo(n + length as usize),
                endless: true,
            },
        }
    }

    // Whether the endless loop has closed where n places are held.
    pub fn closed(self, n: usize) -> bool
        ensures { result ≡ is_closed self n }
    {
        self.endless && self.end.0 <= n
    }

    // Whether place n is the last place of the last loop.
    pub fn ends_at(self, n: usize) -> bool
        requires { n < room_of kind.Place }
        ensures { result ≡ is_loop_end self n }
    {
        self.first.0 <= n && self.end.0 == n + 1
    }

    // Whether a record of place n has a loop mark inside an open loop, or one whose loop would pass the last place.
    fn bars(self, n: usize, row: Record) -> bool
        requires { n ≤ room_of kind.Place }
        ensures { result ≡ is_barred self n row.fields }
    {
        let length = items::content_at(row, 4);
        kinds::is_number(length)
            && (n < self.end.0 || Room::PLACES < n + kinds::natural_of(length) as usize)
    }
}

// 26: field 2 filled at place 0, or blank later.
#[tactic(auto, unfolding(crate::specs::Standing::way_answer))]
fn way_answer(n: usize, row: Record) -> Result<(), Refusal>
    ensures { result ≡ way_answer n row.fields }
{
    let way = items::content_at(row, 2);
    let wrong = if n == 0 {
        kinds::is_number(way)
    } else {
        checks::is_blank(way)
    };
    if wrong {
        Err(Refusal::WrongWayIn)
    } else {
        Ok(())
    }
}

// 25: a place after the endless loop has closed, or a loop mark that may not stand there.
#[tactic(auto, unfolding(crate::specs::Standing::place_answer, crate::specs::Standing::mark_answer))]
fn place_answer(loops: Loops, n: usize, row: Record) -> Result<(), Refusal>
    requires { n ≤ room_of kind.Place }
    ensures { result ≡ place_answer loops n row.fields }
{
    if loops.closed(n) {
        return Err(Refusal::Misplaced(0));
    }
    if loops.bars(n, row) {
        return Err(Refusal::Misplaced(4));
    }
    way_answer(n, row)
}

// 25 and 26, of a place.
fn layout_answer(count: Counts, loops: Loops, kind: Kind, row: Record) -> Result<(), Refusal>
    requires { count_of count kind ≤ room_of kind }
    ensures { result ≡ layout_answer kind count loops row.fields }
{
    if kind.is(Kind::Place) {
        place_answer(loops, count.places, row)
    } else {
        Ok(())
    }
}

// The results that come from the state, in order: 21, 22, 23 (absent: the lowest field that refers to nothing), 25, 26.
#[tactic(auto, unfolding(crate::specs::Standing::there_answer, crate::specs::Standing::room_answer, crate::specs::Standing::order_answer, table::specs::Table::shape_of))]
fn state_answer(
    count: Counts,
    loops: Loops,
    kind: Kind,
    row: Record,
    absent: Option<usize>,
) -> Result<(), Refusal>
    requires { absent ≡ field_or_none (lowest_fault (fault.NotThere count) (shape_of kind row) row) }
    ensures { result ≡ order_answer count loops (shape_of kind row) row }
{
    if kind.rank() < count.last_rank() {
        return Err(Refusal::OutOfOrder);
    }
    if room_of(kind) <= count.of(kind) {
        return Err(Refusal::NoRoom);
    }
    if let Some(f) = absent {
        return Err(Refusal::NotThere(f));
    }
    layout_answer(count, loops, kind, row)
}

// The answer to a record of this kind, by the order of the tests. (Inlined into `answer_of`, it makes taking records that are right cost 0.8 % more instructions.)
#[tactic(auto, unfolding(crate::specs::Standing::record_answer))]
#[inline(never)]
fn ordered_answer(count: Counts, loops: Loops, kind: Kind, row: Record) -> Result<(), Refusal>
    ensures { result ≡ record_answer count loops kind row }
{
    let shape = table::shape_of(kind, row);
    checks::fields_answer(shape, row)?;
    let absent = checks::lowest_fault(Fault::NotThere(count), shape, row);
    state_answer(count, loops, kind, row, absent)
}

// The same; one pass settles a record whose fields are right. One that is taken finds room.
pub fn answer_of(count: Counts, loops: Loops, kind: Kind, row: Record) -> Result<(), Refusal>
    ensures answer { result ≡ record_answer count loops kind row }
    ensures room { OnOk result (count_of count kind < room_of kind) }
{
    let shape = table::shape_of(kind, row);
    if checks::fits(count, shape, row) {
        return state_answer(count, loops, kind, row, None);
    }
    ordered_answer(count, loops, kind, row)
}
