// A value for each counter: the numbers of an item more, n times another more, and the sum of coefficient times counter.
#![tactic(auto)]

ghost use Rattle.std.specs.Prelude.{◌≡◌, ℕ, ◌+◌, ◌*◌, ◌≤◌, ◌<◌, ◌^◌, pos, ◌+ℤ◌, ◌*ℤ◌};
ghost use Rattle.laws.specs.Sizes.{size};
ghost use Rattle.kinds.specs.Kinds.{counters};
ghost use Rattle.counters.specs.Vectors.{value_at, number_at, vec};
ghost use Rattle.counters.specs.Bounds.{sizes};
ghost use Rattle.counters.specs.Sum.{sum};

use kinds::PerCounter;

// A value for each counter.
#[derive(Clone, Copy)]
pub struct Counters {
    pub at: [i64; PerCounter::COUNT],
}

// All 0.
pub fn zero() -> Counters
    ensures { result.at ≡ vec (λ j. pos 0) }
{
    Counters {
        at: [0; PerCounter::COUNT],
    }
}

// The numbers of an item more, counter by counter; what their type leaves them is promised too.
pub fn plus(v: Counters, u: PerCounter) -> Counters
    requires { (j : ℕ) → j < counters → size (value_at v j) + 2 ^ 15 < 2 ^ 63 }
    ensures { (result.at ≡ vec (λ j. value_at v j +ℤ number_at u j)) × ((j : ℕ) → j < counters → size (number_at u j) ≤ 2 ^ 15) }
{
    let mut at = [0; PerCounter::COUNT];
    for j in 0..PerCounter::COUNT {
        at[j] = v.at[j] + i64::from(u.at[j]);
    }
    Counters { at }
}

// n times b more, counter by counter.
pub fn more(a: Counters, n: i64, b: Counters) -> Counters
    requires { (j : ℕ) → j < counters → size (value_at a j) + size n * size (value_at b j) < 2 ^ 63 }
    ensures { result.at ≡ vec (λ j. value_at a j +ℤ n *ℤ value_at b j) }
{
    let mut at = [0; PerCounter::COUNT];
    for j in 0..PerCounter::COUNT {
        at[j] = a.at[j] + n * b.at[j];
    }
    Counters { at }
}

// The sum of coefficient times counter.
pub fn dot(c: PerCounter, v: Counters) -> i64
    requires { sizes c.at (value_at v) < 2 ^ 63 }
    ensures { result ≡ sum c.at (value_at v) }
{
    let mut total = 0;
    for j in 0..PerCounter::COUNT {
        total += i64::from(c.at[j]) * v.at[j];
    }
    total
}
