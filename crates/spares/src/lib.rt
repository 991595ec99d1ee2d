//! The checks of the spare bytes.

#![tactic(auto)]

pub mod block;
pub mod phase;

ghost use Rattle.std.specs.Prelude.{◌≡◌, true, ℕ, ◌-◌, ◌*◌, ◌≤◌, ◌<◌};
ghost use Rattle.layout.specs.Layout.{Layout, layout_of, limits};
ghost use Rattle.layout.specs.Page.{Page, page_at};
ghost use Rattle.layout.specs.Record.{Record, record_at};
ghost use Rattle.layout.specs.Collection.{collection_at};
ghost use Rattle.rules.specs.Sound.{is_lost, spares_sound};
ghost use Rattle.codec.specs.Fit.{ChipsFit, RecordsFit};
ghost use Rattle.codec.specs.Views.{CollectionIs};
ghost use Rattle.names.specs.Checked.{RecordsPass};
ghost use Rattle.names.specs.Stamps.{names_kept};
ghost use Rattle.spares.specs.Scans.{chip_scan, chip_scans, survey};

use block::Stamps;
use codec::CollectionRecord;
use layout::Geometry;
use phase::phase_passes;
use ranges::{Least, no_least, with_next};

// What the blocks of a chip that were looked at bring.
#[derive(Clone, Copy)]
pub struct ChipScan {
    // all are in order
    pub ordered: bool,
    // some block is wholly clean
    pub clean: bool,
    // pages that the records name, each found by its own stamp
    pub named: usize,
    // of the full blocks with a page that is not named, the one with fewest named pages
    pub victim: Option<Least>,
}

// What one look at every spare brings. The chips are told of spares that are not sound too (`scan_spares`).
#[derive(Clone, Copy)]
pub struct Survey {
    pub sound: bool,
    // for each chip; of the lost one and of those that are not there, no block
    pub chips: [ChipScan; 7],
}

// How many pages are looked at together, so that little is done for each block alone where blocks are small. No block has more.
const TOGETHER: usize = 128;

// The block behind those that are looked at together from block b on.
fn next_stop(g: Geometry, b: usize) -> usize
    requires { (limits (layout_of g) ≡ true) × (b < g.b) }
    ensures { (b < result) × (result ≤ g.b) × ((result - b) * g.k ≤ 128) }
{
    let blocks = g.b as usize;
    let some = TOGETHER / g.k as usize;
    if some < blocks - b { b + some } else { blocks }
}

// Of chip c, with s of its blocks below from: the same with the blocks below end.
fn with_blocks(
    chips: &[u8],
    records: &[u8],
    g: Geometry,
    c: usize,
    from: usize,
    end: usize,
    s: ChipScan,
) -> ChipScan
    requires { ChipsFit g chips.now × RecordsFit g records.now × (c ≤ g.n) × (from < end) × (end ≤ g.b) × ((end - from) * g.k ≤ 128)
        × (s ≡ chip_scan (layout_of g) (record_at (layout_of g) records.now) (page_at (layout_of g) chips.now c) c from) }
    ensures { result ≡ chip_scan (layout_of g) (record_at (layout_of g) records.now) (page_at (layout_of g) chips.now c) c end }
{
    let k = g.k as usize;
    let first = from * k;
    let count = (end - from) * k;
    let mut stamps = Stamps::none();
    stamps.fetch(chips, g, c, first, count);
    let mut ordered = s.ordered;
    let mut clean = s.clean;
    let mut named = s.named;
    let mut victim = s.victim;
    for b in from..end {
        let o = (b - from) * k;
        let scan = stamps.scan_block(records, g, o);
        victim = with_next(victim, b, scan.full & (scan.named < k), scan.named);
        ordered = ordered & scan.ordered;
        clean = clean | scan.clean;
        named += scan.named;
    }
    ChipScan {
        ordered,
        clean,
        named,
        victim,
    }
}

// No block yet. No Default, for its contract says what it begins.
fn no_block() -> ChipScan
    ensures { (l : Layout) (r : ℕ → Record) (x : ℕ → Page) (c : ℕ) → result ≡ chip_scan l r x c 0 }
{
    let victim = no_least();
    ChipScan {
        ordered: true,
        clean: false,
        named: 0,
        victim,
    }
}

// One look at each page's spare of chip c.
pub fn scan_chip(chips: &[u8], records: &[u8], g: Geometry, c: usize) -> ChipScan
    requires { ChipsFit g chips.now × RecordsFit g records.now × (c ≤ g.n) }
    ensures { result ≡ chip_scan (layout_of g) (record_at (layout_of g) records.now) (page_at (layout_of g) chips.now c) c g.b }
{
    let blocks = g.b as usize;
    let mut scan = no_block();
    let mut b = 0;
    // no for: the last blocks may be fewer than a step, and step_by would not say where they end
    while b < blocks {
        let end = next_stop(g, b);
        scan = with_blocks(chips, records, g, c, b, end, scan);
        b = end;
    }
    scan
}

// One look at each page's spare of every chip but the lost one. Some blocks of all chips and not chip by chip: chips fill alike, so that a
// block's stripes are mostly those of the same block on other chips, whose records were just looked at.
fn scan_all(chips: &[u8], records: &[u8], g: Geometry, lost: usize) -> [ChipScan; 7]
    requires { ChipsFit g chips.now × RecordsFit g records.now }
    ensures { result ≡ chip_scans (layout_of g) (record_at (layout_of g) records.now) (page_at (layout_of g) chips.now) lost g.b }
{
    let blocks = g.b as usize;
    let n = g.n as usize;
    let first = no_block();
    let mut scans = [first; 7];
    let mut b = 0;
    // no for: the last blocks may be fewer than a step, and step_by would not say where they end
    while b < blocks {
        let end = next_stop(g, b);
        for c in 0..n + 1 {
            if c != lost {
                let scan = with_blocks(chips, records, g, c, b, end, scans[c]);
                scans[c] = scan;
            }
        }
        b = end;
    }
    scans
}

// Whether the spares are sound on every chip but the lost one, where the records have so many page numbers there.
fn spares_pass(
    chips: &[u8],
    records: &[u8],
    g: Geometry,
    co: CollectionRecord,
    names: usize,
    lost: usize,
    scans: [ChipScan; 7],
) -> bool
    requires { ChipsFit g chips.now × RecordsPass g records.now × CollectionIs co (collection_at (layout_of g) records.now)
        × (names ≡ names_kept (layout_of g) (record_at (layout_of g) records.now) lost)
        × (scans ≡ chip_scans (layout_of g) (record_at (layout_of g) records.now) (page_at (layout_of g) chips.now) lost g.b) }
    ensures { result ≡ spares_sound (layout_of g) (record_at (layout_of g) records.now) (page_at (layout_of g) chips.now) (collection_at (layout_of g) records.now) (is_lost lost) }
{
    let n = g.n as usize;
    let busy = (co.phase == 1) | (co.phase == 2);
    let mut named: usize = 0;
    let mut shaped = true;
    for c in 0..n + 1 {
        if c != lost {
            let scan = scans[c];
            named += scan.named;
            shaped = shaped & scan.ordered & (scan.clean | (busy & (co.chip == c)));
        }
    }
    if (named != names) | !shaped {
        return false;
    }
    if co.chip == lost {
        return true;
    }
    phase_passes(chips, records, g, co)
}

// One look at every spare, where the records have so many page numbers there.
pub fn scan_spares(
    chips: &[u8],
    records: &[u8],
    g: Geometry,
    co: CollectionRecord,
    names: usize,
    lost: usize,
) -> Survey
    requires { ChipsFit g chips.now × RecordsPass g records.now × CollectionIs co (collection_at (layout_of g) records.now)
        × (names ≡ names_kept (layout_of g) (record_at (layout_of g) records.now) lost) }
    ensures { result ≡ survey (layout_of g) (record_at (layout_of g) records.now) (page_at (layout_of g) chips.now) (collection_at (layout_of g) records.now) lost }
{
    let scans = scan_all(chips, records, g, lost);
    let sound = spares_pass(chips, records, g, co, names, lost, scans);
    Survey {
        sound,
        chips: scans,
    }
}
