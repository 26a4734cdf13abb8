// The kinds of records, how many items of each there are, and what a field's content says alone.
#![tactic(auto)]

ghost use Rattle.std.specs.Prelude.{◌≡◌, cond, ◌<◌, ◌^◌, ltb};
ghost use Rattle.kinds.specs.Kinds.{letter_of, kind_of, rank_of, same, count_of, counts_by, counts_total};
ghost use Rattle.kinds.specs.Last.{kind_at, last_rank};
ghost use Rattle.kinds.specs.Contents.{flag_of, is_number, natural};

use record::Content;

// The kinds of records: states, starting weights (the initial valuation), guards, moves (transitions), sentences (CLTL formulas) and places (states of
// the path schema).
#[derive(Clone, Copy, PartialEq, Eq)]
pub enum Kind {
    State,
    Weights,
    Guard,
    Move,
    Sentence,
    Place,
}

// How many items of each kind a case holds. (Beside its arrays: fixed memory, no heap.)
#[derive(Clone, Copy)]
pub struct Counts {
    pub states: usize,
    pub weights: usize,
    pub guards: usize,
    pub moves: usize,
    pub sentences: usize,
    pub places: usize,
}

// A number for each counter.
#[derive(Clone, Copy)]
pub struct PerCounter {
    pub at: [i16; PerCounter::COUNT],
}

impl PerCounter {
    // The number of counters.
    pub const COUNT: usize = 4;
}

// The kind that a letter names.
#[tactic(auto, unfolding(crate::specs::Kinds::kind_in))]
pub fn kind_of(letter: u8) -> Option<Kind>
    ensures { result ≡ kind_of letter }
{
    match letter {
        b'S' => Some(Kind::State),
        b'W' => Some(Kind::Weights),
        b'G' => Some(Kind::Guard),
        b'T' => Some(Kind::Move),
        b'F' => Some(Kind::Sentence),
        b'P' => Some(Kind::Place),
        _ => None,
    }
}

impl Kind {
    // The number of kinds.
    pub const COUNT: usize = 6;

    // The kind of a rank; the first where there is no such rank. (A number, as `rank`: the clause is `kind_at`.)
    pub fn at(rank: usize) -> Kind
        ensures { result ≡ kind_at rank }
    {
        match rank {
            1 => Kind::Weights,
            2 => Kind::Guard,
            3 => Kind::Move,
            4 => Kind::Sentence,
            5 => Kind::Place,
            _ => Kind::State,
        }
    }

    // The letter of this kind.
    pub fn letter(self) -> u8
        ensures { result ≡ letter_of self }
    {
        match self {
            Kind::State => b'S',
            Kind::Weights => b'W',
            Kind::Guard => b'G',
            Kind::Move => b'T',
            Kind::Sentence => b'F',
            Kind::Place => b'P',
        }
    }

    // The place of this kind in the order in which kinds come. (A number: `last_rank` counts 0 for a case that holds nothing, and the clause is `rank_of`.)
    pub fn rank(self) -> usize
        ensures { result ≡ rank_of self }
    {
        match self {
            Kind::State => 0,
            Kind::Weights => 1,
            Kind::Guard => 2,
            Kind::Move => 3,
            Kind::Sentence => 4,
            Kind::Place => 5,
        }
    }

    // Whether this kind is the other.
    pub fn is(self, other: Kind) -> bool
        ensures { result ≡ same self other }
    {
        self == other
    }
}

impl Counts {
    // No items.
    pub fn none() -> Counts
        ensures { result ≡ counts_by (λ k. 0) }
    {
        Counts {
            states: 0,
            weights: 0,
            guards: 0,
            moves: 0,
            sentences: 0,
            places: 0,
        }
    }

    // How many items of a kind are held.
    pub fn of(self, kind: Kind) -> usize
        ensures { result ≡ count_of self kind }
    {
        match kind {
            Kind::State => self.states,
            Kind::Weights => self.weights,
            Kind::Guard => self.guards,
            Kind::Move => self.moves,
            Kind::Sentence => self.sentences,
            Kind::Place => self.places,
        }
    }

    // How many items are held.
    #[tactic(auto, unfolding(laws::specs::All::sum_over))]
    pub fn total(self) -> usize
        requires { counts_total self < 2 ^ 64 }
        ensures { result ≡ counts_total self }
    {
        self.states + self.weights + self.guards + self.moves + self.sentences + self.places
    }

    // The rank of the last kind of which an item is held.
    #[tactic(auto, unfolding(crate::specs::Last::last_below))]
    pub fn last_rank(self) -> usize
        ensures { result ≡ last_rank self }
    {
        let states = rank_if(self.states, Kind::State, 0);
        let weights = rank_if(self.weights, Kind::Weights, states);
        let guards = rank_if(self.guards, Kind::Guard, weights);
        let moves = rank_if(self.moves, Kind::Move, guards);
        let sentences = rank_if(self.sentences, Kind::Sentence, moves);
        rank_if(self.places, Kind::Place, sentences)
    }
}

// A kind's rank where items of it are held, and else the other.
fn rank_if(held: usize, kind: Kind, other: usize) -> usize
    ensures { result ≡ cond (ltb 0 held) (rank_of kind) other }
{
    if 0 < held { kind.rank() } else { other }
}

// 1 for a field that is filled, 0 for any other. (A number, as `Filled` of `table` keeps it: its clause is `flag_of`.)
pub fn flag_of(content: Content) -> u32
    ensures { result ≡ flag_of content }
{
    match content {
        Content::Number(_) => 1,
        _ => 0,
    }
}

// Whether a field is filled.
pub fn is_number(content: Content) -> bool
    ensures { result ≡ is_number content }
{
    matches!(content, Content::Number(_))
}

// The number of a field that is 0 or more, and 0 of any other.
pub fn natural_of(content: Content) -> u32
    ensures { result ≡ natural content }
{
    match content {
        Content::Number(x) => x.max(0) as u32,
        _ => 0,
    }
}
