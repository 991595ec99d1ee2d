//! Rows 1 and 2 of the table: the limits of a geometry, and the lengths of the images.

ghost use Rattle.std.specs.Prelude.{◌≡◌, true};
ghost use Rattle.layout.specs.Layout.{layout_of, limits};
ghost use Rattle.layout.specs.Images.{lengths};

use super::{NO_SLOT, NONE, RECORD_BYTES, SPARE_BYTES};
use layout::Geometry;

// The limits of document 01. The data of a page are some units. The largest number of a page and of a slot stand for none.
const MOST_MEMBERS: u64 = 6;

const UNIT: u64 = 16;

const MOST_BYTES: u64 = 4096;

const MOST_PLACES: u64 = 128;

const MOST_BLOCKS: u64 = 1024;

const MOST_PAGES: u64 = NONE as u64;

const MOST_STRIPES: u64 = 65535;

const MOST_PARTIALS: u64 = NO_SLOT as u64 - 1;

// Whether the geometry is within the limits. No product is formed before its factors are known to be small.
pub fn geometry_passes(g: Geometry) -> bool
    ensures { result ≡ limits (layout_of g) }
{
    let sizes = (2 <= g.n)
        & (g.n <= MOST_MEMBERS)
        & (UNIT <= g.w)
        & (g.w <= MOST_BYTES)
        & (g.w % UNIT == 0)
        & (2 <= g.k)
        & (g.k <= MOST_PLACES)
        & (2 <= g.b)
        & (g.b <= MOST_BLOCKS);
    if !sizes {
        return false;
    }
    let counts = (g.b * g.k <= MOST_PAGES)
        & (1 <= g.s)
        & (g.s <= MOST_STRIPES)
        & (1 <= g.m)
        & (g.m <= MOST_PARTIALS);
    if !counts {
        return false;
    }
    g.s + g.m + 1 <= (g.b - 1) * g.k
}

// Whether each image has its length.
pub fn lengths_pass(g: Geometry, chips: &[u8], records: &[u8], slots: &[u8]) -> bool
    requires { limits (layout_of g) ≡ true }
    ensures { result ≡ lengths (layout_of g) (record { chips = chips.now; records = records.now; slots = slots.now }) }
{
    let n = g.n as usize;
    let w = g.w as usize;
    let k = g.k as usize;
    let b = g.b as usize;
    let s = g.s as usize;
    let m = g.m as usize;
    (chips.len() == (n + 1) * (b * k) * (w + SPARE_BYTES))
        & (records.len() == (s + 1) * RECORD_BYTES)
        & (slots.len() == (m + 1) * w)
}
