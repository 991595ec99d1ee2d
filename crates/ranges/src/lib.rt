//! What a search through a range of numbers answers, and the least by a measure.

#![tactic(auto)]

ghost use Rattle.std.specs.Prelude.{◌≡◌, Bool, true, cond, ℕ, ◌+◌, ◌≤◌};
ghost use Rattle.ranges.specs.Look.{found_in, least_so_far};

// A number and its measure.
#[derive(Clone, Copy)]
pub struct Least {
    pub at: usize,
    pub measure: usize,
}

// None yet: a function and no literal, for its contract says what it begins.
pub fn no_least() -> Option<Least>
    ensures { (f : ℕ → Bool) (m : ℕ → ℕ) → result ≡ least_so_far f m 0 }
{
    None
}

// The least with number n, of this measure where it passes; on ties the lower number stands.
pub fn with_next(least: Option<Least>, n: usize, passes: bool, measure: usize) -> Option<Least>
    ensures { (f : ℕ → Bool) (m : ℕ → ℕ) → least ≡ least_so_far f m n → passes ≡ f n → (f n ≡ true → measure ≡ m n) → result ≡ least_so_far f m (n + 1) }
{
    if !passes {
        return least;
    }
    if let Some(best) = least {
        if best.measure <= measure {
            return least;
        }
    }
    Some(Least { at: n, measure })
}

// What was found.
pub fn found_in(least: Option<Least>) -> Option<usize>
    ensures { result ≡ found_in least }
{
    least.map(|best| best.at)
}

// What a test adds to a count, with its bound.
pub fn ones(test: bool) -> usize
    ensures { (result ≡ cond test 1 0) × (result ≤ 1) }
{
    if test { 1 } else { 0 }
}
