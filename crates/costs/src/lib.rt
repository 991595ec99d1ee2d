//! The cost of a commit, over the number of members in the bitmap.

#![tactic(auto)]

ghost use Rattle.std.specs.Prelude.{◌≡◌, true, ◌≤◌, ◌<◌};
ghost use Rattle.layout.specs.Layout.{layout_of, limits};
ghost use Rattle.layout.specs.Record.{Record};
ghost use Rattle.rules.specs.Costs.{set_bits, most_in_partial, cost_of};

use codec::bit_of;
use layout::Geometry;

// How many members are in a bitmap.
pub fn set_bits(g: Geometry, bitmap: usize) -> usize
    requires { limits (layout_of g) ≡ true }
    ensures { ((e : Record) → e.bitmap ≡ bitmap → result ≡ set_bits (layout_of g) e) × (result ≤ g.n) }
{
    let n = g.n as usize;
    let mut p: usize = 0;
    for m in 0..n {
        if bit_of(bitmap, m) {
            p += 1;
        }
    }
    p
}

// Whether at least half of n members, rounded up, are in the partial parity.
pub fn most_in_partial(n: usize, p: usize) -> bool
    requires { n ≤ 6 }
    ensures { result ≡ most_in_partial n p }
{
    (n + 1) / 2 <= p
}

// The cost of a commit with p of n members in the bitmap.
pub fn cost_of(n: usize, p: usize) -> usize
    requires { (n ≤ 6) × (p ≤ n) }
    ensures { (result ≡ cost_of n p) × (result < 8) }
{
    if most_in_partial(n, p) { n - p } else { p + 1 }
}
