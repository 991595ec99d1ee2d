//! Where a chip has room: the place of the next page, the block to collect, the block to copy to.

#![tactic(auto)]

ghost use Rattle.std.specs.Prelude.{◌≡◌};
ghost use Rattle.ranges.specs.Look.{found_in};
ghost use Rattle.layout.specs.Layout.{layout_of};
ghost use Rattle.layout.specs.Page.{page_at};
ghost use Rattle.layout.specs.Record.{record_at};
ghost use Rattle.rules.specs.Blocks.{lowest_clean_block};
ghost use Rattle.rules.specs.Place.{place_of};
ghost use Rattle.names.specs.Stamps.{StampsPass};
ghost use Rattle.space.specs.Ordered.{Ordered};
ghost use Rattle.space.specs.Victims.{victim_wanted};

use codec::is_clean;
use layout::Geometry;
use ranges::found_in;
use spares::{ChipScan, scan_chip};

// The place on chip c, if there is one. In a block its used pages come first: the block is begun where its first page is used and has
// room where its last one is clean.
pub fn place_on(chips: &[u8], g: Geometry, c: usize) -> Option<usize>
    requires { Ordered g chips.now c }
    ensures { result ≡ place_of (layout_of g) (page_at (layout_of g) chips.now c) }
{
    let blocks = g.b as usize;
    let k = g.k as usize;
    let mut found = None;
    let mut clean: usize = 0;
    let mut lowest: usize = 0;
    'search: for b in 0..blocks {
        let first = b * k;
        if is_clean(chips, g, c, first) {
            if clean == 0 {
                lowest = first;
            }
            clean += 1;
        } else if is_clean(chips, g, c, first + k - 1) {
            for i in 1..k {
                if is_clean(chips, g, c, first + i) {
                    found = Some(first + i);
                    break 'search;
                }
            }
        }
    }
    match found {
        Some(p) => Some(p),
        None => { if 2 <= clean { Some(lowest) } else { None } }
    }
}

// The lowest clean block of chip c.
pub fn clean_block_on(chips: &[u8], g: Geometry, c: usize) -> Option<usize>
    requires { Ordered g chips.now c }
    ensures { result ≡ lowest_clean_block (layout_of g) (page_at (layout_of g) chips.now c) }
{
    let blocks = g.b as usize;
    let k = g.k as usize;
    for b in 0..blocks {
        if is_clean(chips, g, c, b * k) {
            return Some(b);
        }
    }
    None
}

// The victim that the scan of a whole chip has found, if any.
pub fn victim_in(s: ChipScan) -> Option<usize>
    ensures { result ≡ found_in s.victim }
{
    let least = s.victim;
    found_in(least)
}

// The full block of chip c with fewest named pages, if one has a page that is not named; none where the chip has a place, for then
// nobody asks for it.
pub fn victim_on(chips: &[u8], records: &[u8], g: Geometry, c: usize) -> Option<usize>
    requires { Ordered g chips.now c × StampsPass g chips.now records.now c }
    ensures { result ≡ victim_wanted (layout_of g) c (page_at (layout_of g) chips.now c) (record_at (layout_of g) records.now) }
{
    if let Some(_) = place_on(chips, g, c) {
        return None;
    }
    victim_in(scan_chip(chips, records, g, c))
}
