//! The four kinds of store, each under the allowance: one page program, block erase, slot or record.

#![tactic(auto)]

ghost use Rattle.std.specs.Prelude.{◌≡◌, true, List, [], ◌∷◌, ℕ, ◌+◌, ◌-◌, ◌^◌, ◌≤◌, ◌<◌, min, length};
ghost use Rattle.std.specs.Fn.{FnOnceTakesAtMut, FnOnceReturnsAtMut};
ghost use Rattle.layout.specs.Layout.{layout_of, pages};
ghost use Rattle.steps.specs.Store.{program as programStore, erase as eraseStore, slot as slotStore, stripe, collection};
ghost use Rattle.steps.specs.Steps.{plain, no_counts, reading};
ghost use Rattle.codec.specs.Fit.{ChipsFit, RecordsFit, SlotsFit};
ghost use Rattle.codec.specs.Views.{record_from, collection_from, page_from, SmallRecord, SmallSpare};
ghost use Rattle.steps.specs.Allowance.{most_reads, started, counting_all, Sane, Ran, images};

use codec::put::{put_clean_block, put_collection, put_page, put_record, put_slot};
use codec::{CollectionRecord, Spare, StripeRecord};
use layout::Geometry;
use steps::{Counts, Progress};

// 2^59: no list has as many, and eight reads for each of them still fit a counter.
const MOST_STORES: u64 = 576460752303423488;

// Before the first store of a call that has read so many pages. An allowance larger than any list is as good as the most.
pub fn start_after(reads: u64, allowance: u64) -> Progress
    requires { reads < 2 ^ 62 }
    ensures { (result ≡ started (reading reads) (min allowance (2 ^ 59))) × Sane result }
{
    let left = allowance.min(MOST_STORES);
    Progress {
        counts: Counts::of_reads(reads),
        left,
        cut: false,
    }
}

// The same of a call that has read none.
pub fn start(allowance: u64) -> Progress
    ensures { (result ≡ started no_counts (min allowance (2 ^ 59))) × Sane result }
{
    start_after(0, allowance)
}

// How many of the stores that are due the allowance holds.
pub fn held(p: Progress, due: usize) -> usize
    ensures { result ≡ min p.left due }
{
    p.left.min(due as u64) as usize
}

// So many stores alike are due, for which no page is read or programmed: those that the allowance holds are counted.
pub fn count_all(p: Progress, due: u64, erases: u64) -> Progress
    requires { Sane p × (erases ≤ 1) }
    ensures { result ≡ counting_all p due erases }
{
    let made = p.left.min(due);
    let c = p.counts;
    Progress {
        counts: Counts {
            erases: c.erases + made * erases,
            stores: c.stores + made,
            ..c
        },
        left: p.left - made,
        cut: p.cut | (p.left < due),
    }
}

// One store under the allowance: with nothing left the run is cut; else put changes the image, and so many pages read, programmed and
// erased are counted.
fn store<F: FnOnce(&mut [u8])>(
    image: &mut [u8],
    reads: u64,
    programs: u64,
    erases: u64,
    p: Progress,
    put: F,
) -> Progress
    requires { FnOnceTakesAtMut F.FnOnce put image.old × Sane p × (reads ≤ most_reads) × (programs ≤ 1) × (erases ≤ 1) }
    ensures stopped { p.left ≡ 0 → (result ≡ record { counts = p.counts; left = p.left; cut = true }) × (image.new ≡ image.old) }
    ensures made { 0 < p.left → FnOnceReturnsAtMut F.FnOnce put image.old tt image.new × (result ≡ record {
      counts = record {
        reads = p.counts.reads + reads;
        programs = p.counts.programs + programs;
        erases = p.counts.erases + erases;
        stores = p.counts.stores + 1;
      };
      left = p.left - 1;
      cut = p.cut;
    }) }
{
    if p.left == 0 {
        return Progress { cut: true, ..p };
    }
    put(image);
    let c = p.counts;
    Progress {
        counts: Counts {
            reads: c.reads + reads,
            programs: c.programs + programs,
            erases: c.erases + erases,
            stores: c.stores + 1,
        },
        left: p.left - 1,
        ..p
    }
}

// Programs page q of chip c with the data and the spare, for which so many pages were read.
pub fn program(
    chips: &mut [u8],
    g: Geometry,
    c: usize,
    q: usize,
    bytes: &[u8],
    t: Spare,
    reads: u64,
    p: Progress,
) -> Progress
    requires { ChipsFit g chips.old × (c ≤ g.n) × (q < pages (layout_of g)) × (length bytes.now ≡ g.w) × SmallSpare t × (reads ≤ most_reads) × Sane p }
    ensures { (rs zs : List ℕ) → Ran (layout_of g) p
        (record { reads = reads; store = programStore c q (page_from (layout_of g) bytes.now t) } ∷ [])
        result (images chips.old rs zs) (images chips.new rs zs) }
{
    store(
        chips,
        reads,
        1,
        0,
        p,
        |image| put_page(image, g, c, q, bytes, t),
    )
}

// Erases block b of chip c.
pub fn erase(chips: &mut [u8], g: Geometry, c: usize, b: usize, p: Progress) -> Progress
    requires { ChipsFit g chips.old × (c ≤ g.n) × (b < g.b) × Sane p }
    ensures { (rs zs : List ℕ) → Ran (layout_of g) p (plain (eraseStore c b) ∷ [])
        result (images chips.old rs zs) (images chips.new rs zs) }
{
    store(chips, 0, 0, 1, p, |image| put_clean_block(image, g, c, b))
}

// Stores the bytes into slot i, for which so many pages were read.
pub fn store_slot(
    slots: &mut [u8],
    g: Geometry,
    i: usize,
    bytes: &[u8],
    reads: u64,
    p: Progress,
) -> Progress
    requires { SlotsFit g slots.old × (i ≤ g.m) × (length bytes.now ≡ g.w) × (reads ≤ most_reads) × Sane p }
    ensures { (cs rs : List ℕ) → Ran (layout_of g) p (record { reads = reads; store = slotStore i bytes.now } ∷ [])
        result (images cs rs slots.old) (images cs rs slots.new) }
{
    store(slots, reads, 0, 0, p, |image| put_slot(image, g, i, bytes))
}

// Stores the record of stripe j.
pub fn store_record(
    records: &mut [u8],
    g: Geometry,
    j: usize,
    e: StripeRecord,
    p: Progress,
) -> Progress
    requires { RecordsFit g records.old × (j < g.s) × SmallRecord e × Sane p }
    ensures { (cs zs : List ℕ) → Ran (layout_of g) p (plain (stripe j (record_from (layout_of g) e)) ∷ [])
        result (images cs records.old zs) (images cs records.new zs) }
{
    store(records, 0, 0, 0, p, |image| put_record(image, g, j, e))
}

// Stores the collection record.
pub fn store_collection(
    records: &mut [u8],
    g: Geometry,
    co: CollectionRecord,
    p: Progress,
) -> Progress
    requires { RecordsFit g records.old × (co.phase < 256) × (co.chip < 256) × Sane p }
    ensures { (cs zs : List ℕ) → Ran (layout_of g) p (plain (collection (collection_from co)) ∷ [])
        result (images cs records.old zs) (images cs records.new zs) }
{
    store(records, 0, 0, 0, p, |image| put_collection(image, g, co))
}
