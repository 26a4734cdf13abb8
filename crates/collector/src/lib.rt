// A case, and its collector: a record's bytes become the next item of their kind, or are refused and nothing changes.
#![tactic(auto)]

ghost use Rattle.std.specs.Prelude.{◌≡◌, cond, ◌+◌, ◌-◌, ◌≤◌, ◌<◌, min};
ghost use Rattle.record.specs.Layout.{record_length};
ghost use Rattle.kinds.specs.declared.Kind.TheVariants as kind;
ghost use Rattle.kinds.specs.Kinds.{count_of};
ghost use Rattle.items.specs.Lists.{room_of, no_item};
ghost use Rattle.meaning.specs.Run.{back_of};
ghost use Rattle.collector.specs.Cases.{slot_of, arrays_of, empty_case, round_from, with};
ghost use Rattle.collector.specs.Taking.{taken_of, collected_of, counted};

use answers::Refusal;
use counters::Counters;
use items::{Form, Guard, LoopMark, Move, Place, PlaceNo, Room, Sentence, State, Weights};
use kinds::{Counts, Kind, PerCounter};
use record::{Content, Field, Record};
use standing::Loops;

// A case: the items of each kind and how many there are, and what follows from them and is kept beside them: the last loop, and what a round of each
// closed loop adds to each counter, with the loop's first place. (Fixed memory, no heap.)
#[derive(Clone, Copy)]
pub struct Case {
    pub count: Counts,
    pub loops: Loops,
    pub drifts: [Counters; Case::PLACES],
    pub states: [State; Case::STATES],
    pub weights: [Weights; Case::WEIGHTS],
    pub guards: [Guard; Case::GUARDS],
    pub moves: [Move; Case::MOVES],
    pub sentences: [Sentence; Case::SENTENCES],
    pub places: [Place; Case::PLACES],
}

// What taking a record hands back. (Document 01 names this form: a struct of the new case and the result.)
#[derive(Clone, Copy)]
pub struct Taken {
    pub case: Case,
    pub answer: Result<(), Refusal>,
}

// The number of the move that a reference names, and one past the room for moves where it names none. (By `if let Some(t)` the test that t is below
// the room would stand beside it: no plainer.)
pub fn slot(r: Option<u8>) -> usize
    ensures { result ≡ slot_of r }
{
    match r {
        None => Case::MOVES,
        Some(t) => usize::from(t),
    }
}

// The back move of a loop.
fn back_of(m: LoopMark) -> Option<u8>
    ensures { result ≡ back_of m }
{
    match m {
        LoopMark::None => None,
        LoopMark::Counted { back, .. } | LoopMark::Endless { back, .. } => Some(back),
    }
}

// The move of a way into a place: the back move of the loop that it begins, or the move into it.
pub fn move_into(place: Place, back: bool) -> Option<u8>
    ensures { result ≡ cond back (back_of place.mark) place.way }
{
    if back { back_of(place.mark) } else { place.way }
}

// What stands where no guard and no place is held yet.
fn no_guard() -> Guard
    ensures { result ≡ no_item kind.Guard }
{
    Guard {
        coefficients: PerCounter {
            at: [0; PerCounter::COUNT],
        },
        bound: 0,
    }
}

fn no_place() -> Place
    ensures { result ≡ no_item kind.Place }
{
    Place {
        state: 0,
        way: None,
        marks: 0,
        mark: LoopMark::None,
    }
}

impl Case {
    // How many items of each kind a case has room for.
    pub const STATES: usize = Room::STATES;

    pub const WEIGHTS: usize = Room::WEIGHTS;

    pub const GUARDS: usize = Room::GUARDS;

    pub const MOVES: usize = Room::MOVES;

    pub const SENTENCES: usize = Room::SENTENCES;

    pub const PLACES: usize = Room::PLACES;

    // How many items in all.
    pub const ROOM: usize = Case::STATES
        + Case::WEIGHTS
        + Case::GUARDS
        + Case::MOVES
        + Case::SENTENCES
        + Case::PLACES;

    // The case that holds nothing. (Its moves are those of a blank row: one that is written out is filled in piece by piece, which takes longer.)
    pub fn empty() -> Case
        ensures { result ≡ empty_case }
    {
        let blank = Field {
            content: Content::Blank,
        };
        let row = Record {
            fields: [blank; Record::FIELDS],
        };
        Case {
            count: Counts::none(),
            loops: Loops {
                first: PlaceNo(0),
                end: PlaceNo(0),
                endless: false,
            },
            drifts: [counters::zero(); Case::PLACES],
            states: [State { propositions: 0 }; Case::STATES],
            weights: [Weights {
                at: [0; PerCounter::COUNT],
            }; Case::WEIGHTS],
            guards: [no_guard(); Case::GUARDS],
            moves: [items::move_of(row); Case::MOVES],
            sentences: [Sentence { form: Form::True }; Case::SENTENCES],
            places: [no_place(); Case::PLACES],
        }
    }

    // What a round adds of a loop from place q to place n: its back move, and the ways into its places but the first.
    fn round_from(&self, q: usize, n: usize) -> Counters
        requires { (q ≤ n) × (n < room_of kind.Place) }
        ensures { result ≡ round_from (arrays_of self.now) q n }
    {
        let mut v = counters::zero();
        let back = slot(move_into(self.places[q], true));
        if back < Case::MOVES {
            v = counters::plus(v, self.moves[back].updates);
        }
        for p in q..n {
            let t = slot(move_into(self.places[p + 1], false));
            if t < Case::MOVES {
                v = counters::plus(v, self.moves[t].updates);
            }
        }
        v
    }

    // Stores the item that a row becomes, and counts it.
    fn store(&mut self, kind: Kind, row: Record)
        requires { count_of self.old.count kind < room_of kind }
        ensures { self.new ≡ with self.old kind row.fields }
    {
        match kind {
            Kind::State => {
                self.states[self.count.states] = items::state_of(row);
                self.count.states += 1;
            }
            Kind::Weights => {
                self.weights[self.count.weights] = items::weights_of(row);
                self.count.weights += 1;
            }
            Kind::Guard => {
                self.guards[self.count.guards] = items::guard_of(row);
                self.count.guards += 1;
            }
            Kind::Move => {
                self.moves[self.count.moves] = items::move_of(row);
                self.count.moves += 1;
            }
            Kind::Sentence => {
                self.sentences[self.count.sentences] = items::sentence_of(row);
                self.count.sentences += 1;
            }
            Kind::Place => {
                let n = self.count.places;
                let place = items::place_of(row);
                self.places[n] = place;
                self.count.places += 1;
                self.loops = self.loops.after(n, place.mark);
                if self.loops.ends_at(n) {
                    let q = self.loops.first.0;
                    self.drifts[q] = self.round_from(q, n);
                }
            }
        }
    }

    // Takes one record in place: its item is held from then on, or the case stays as it was.
    #[tactic(auto, using(crate::proofs::Laws::whole), unfolding(crate::specs::Taking::taken_of, crate::specs::Taking::taken_as))]
    fn add(&mut self, bytes: &[u8]) -> Result<(), Refusal>
        ensures answer { result ≡ (taken_of self.old bytes.now).answer }
        ensures case { self.new ≡ (taken_of self.old bytes.now).case }
    {
        let kind = checks::head_of(bytes)?;
        let row = Record::read(bytes);
        standing::answer_of(self.count, self.loops, kind, row)?;
        self.store(kind, row);
        Ok(())
    }

    // Takes one record: the case with its item, or the case as it was.
    pub fn take(mut self, bytes: &[u8]) -> Taken
        ensures { result ≡ taken_of self bytes.now }
    {
        let answer = self.add(bytes);
        Taken { case: self, answer }
    }

    // Takes the records of a file in order, up to the first that is refused: how many were taken, and why that one is refused.
    pub fn take_all(&mut self, src: &[u8]) -> Result<usize, (usize, Refusal)>
        ensures value { result ≡ counted (collected_of self.old src.now) }
        ensures case { self.new ≡ (collected_of self.old src.now).case }
    {
        let mut taken = 0;
        for bytes in src.chunks(Record::LENGTH) {
            if let Err(refusal) = self.add(bytes) {
                return Err((taken, refusal));
            }
            taken += 1;
        }
        Ok(taken)
    }
}
