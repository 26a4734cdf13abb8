// The answer of a judgement as a computation whose cost doesn't depend on the number of rounds. Definitions stand in specs/; here are their types.
#![tactic(auto)]

// Whether something is true in every round of a place, in none, or in some only.
#[derive(Clone, Copy)]
pub enum Throughout {
    Always,
    Never,
    Changes,
}

// Rounds, counted from 0: none, those up to a last one, or all.
#[derive(Clone, Copy)]
pub enum Rounds {
    None,
    UpTo(u32),
    Ever,
}

// How a sum goes with each round.
#[derive(Clone, Copy)]
pub enum Trend {
    Rises,
    Stays,
    Falls,
}

// On which side of its bound a sum is the first time that it is tested.
#[derive(Clone, Copy)]
pub enum Side {
    AtOrAbove,
    Below,
}

// How the truth of a guard goes over rounds without end: the same every time, or first one and then the other.
#[derive(Clone, Copy)]
pub enum Course {
    AlwaysTrue,
    AlwaysFalse,
    TrueThenFalse,
    FalseThenTrue,
}
