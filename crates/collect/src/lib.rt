//! Collections: the end of one, which is also what open does of one that was cut; a whole one; room on a chip.

#![tactic(auto)]

ghost use Rattle.std.specs.Prelude.{◌≡◌, true, List, ℕ, ◌≤◌, ◌<◌, length};
ghost use Rattle.layout.specs.Layout.{layout_of, no_chip, limits, pages};
ghost use Rattle.layout.specs.Page.{page_at};
ghost use Rattle.layout.specs.Record.{record_at};
ghost use Rattle.layout.specs.Collection.{collection_at};
ghost use Rattle.layout.specs.Images.{slots_length};
ghost use Rattle.rules.specs.Open.{moved as moved_to, repointed, due, ending, move_steps, finish_steps};
ghost use Rattle.rules.specs.Collect.{collectable, collect_block};
ghost use Rattle.rules.specs.Room.{room_steps};
ghost use Rattle.steps.specs.Steps.{then_below};
ghost use Rattle.codec.specs.Fit.{ChipsFit, RecordsFit, SlotsFit};
ghost use Rattle.codec.specs.Views.{record_from, CollectionIs, SmallRecord};
ghost use Rattle.steps.specs.Allowance.{Sane, Ran, images};
ghost use Rattle.names.specs.Checked.{Checked, Settled};
ghost use Rattle.space.specs.Victims.{VictimFor};

use codec::{
    CollectionRecord, StripeRecord, collection_at, member_on, parity_chip, record_at, spare_at,
};
use copying::copy_block;
use device::{erase, store_collection, store_record};
use layout::Geometry;
use names::named_at;
use space::{clean_block_on, place_on};
use spares::phase::twin_place;
use steps::Progress;

// Number q where it was p.
fn moved(x: usize, p: usize, q: usize) -> usize
    ensures { result ≡ moved_to p q x }
{
    if x == p { q } else { x }
}

// The record of stripe j with page q in place of page p on chip c.
fn repoint(g: Geometry, e: StripeRecord, c: usize, j: usize, p: usize, q: usize) -> StripeRecord
    requires { (limits (layout_of g) ≡ true) × (c ≤ g.n) × SmallRecord e × (q < 65536) }
    ensures { (record_from (layout_of g) result ≡ repointed (layout_of g) c j p q (record_from (layout_of g) e)) × SmallRecord result }
{
    let mut next = e;
    let parity = parity_chip(g, j);
    if c == parity {
        next.parity = moved(e.parity, p, q);
        return next;
    }
    let m = member_on(g, parity, c);
    next.current[m] = moved(e.current[m], p, q);
    next.old[m] = moved(e.old[m], p, q);
    next
}

// Whether page q of the collection's chip holds the copy of a page that is still named in the victim.
fn is_due(chips: &[u8], records: &[u8], g: Geometry, co: CollectionRecord, q: usize) -> bool
    requires { Checked g no_chip chips.now records.now × CollectionIs co (collection_at (layout_of g) records.now)
        × (co.chip ≤ g.n) × (co.victim < g.b) × (q < pages (layout_of g)) }
    ensures { result ≡ due (layout_of g) (collection_at (layout_of g) records.now) (page_at (layout_of g) chips.now co.chip) (record_at (layout_of g) records.now) q }
{
    let first = co.victim * g.k as usize;
    match twin_place(chips, records, g, co.chip, co.victim, q) {
        Some(i) => named_at(chips, records, g, co.chip, first + i),
        None => false,
    }
}

// Place i of the destination: where it is due, its record gets the copy in place of the original.
fn move_from(
    chips: &[u8],
    records: &mut [u8],
    g: Geometry,
    co: CollectionRecord,
    i: usize,
    p: Progress,
) -> Progress
    requires { Checked g no_chip chips.now records.old × CollectionIs co (collection_at (layout_of g) records.old)
        × (co.phase ≡ 2) × (i < g.k) × Sane p }
    ensures { (zs : List ℕ) → Ran (layout_of g) p
        (move_steps (layout_of g) (collection_at (layout_of g) records.old) i (images chips.now records.old zs))
        result (images chips.now records.old zs) (images chips.now records.new zs) }
{
    let k = g.k as usize;
    let q = co.destination * k + i;
    if !is_due(chips, records, g, co, q) {
        return p;
    }
    let t = spare_at(chips, g, co.chip, q);
    let j = t.stripe;
    let e = repoint(g, record_at(records, g, j), co.chip, j, t.copied, q);
    store_record(records, g, j, e, p)
}

// All places of the destination, in order.
fn move_all(
    chips: &[u8],
    records: &mut [u8],
    g: Geometry,
    co: CollectionRecord,
    p: Progress,
) -> Progress
    requires { Checked g no_chip chips.now records.old × CollectionIs co (collection_at (layout_of g) records.old)
        × (co.phase ≡ 2) × Sane p }
    ensures { (zs : List ℕ) → length zs ≡ slots_length (layout_of g) → Ran (layout_of g) p
        (then_below (layout_of g) g.k (move_steps (layout_of g) (collection_at (layout_of g) records.old)) (images chips.now records.old zs))
        result (images chips.now records.old zs) (images chips.now records.new zs) }
{
    let k = g.k as usize;
    let mut run = p;
    for i in 0..k {
        // past a cut no store is made, and the images are not those that the next part is worked out from
        if run.cut {
            return run;
        }
        run = move_from(chips, records, g, co, i, run);
    }
    run
}

// Erases block b of chip c and stores phase 0.
fn end(
    chips: &mut [u8],
    records: &mut [u8],
    g: Geometry,
    c: usize,
    b: usize,
    p: Progress,
) -> Progress
    requires { ChipsFit g chips.old × RecordsFit g records.old × (c ≤ g.n) × (b < g.b) × Sane p }
    ensures { (zs : List ℕ) → Ran (layout_of g) p (ending c b)
        result (images chips.old records.old zs) (images chips.new records.new zs) }
{
    let erased = erase(chips, g, c, b, p);
    let idle = CollectionRecord::default();
    store_collection(records, g, idle, erased)
}

// Finishes the collection that the images are in, if any. It is lent what it stores into: a view would ask its callers for the slots too.
pub fn finish(chips: &mut [u8], records: &mut [u8], g: Geometry, p: Progress) -> Progress
    requires { Checked g no_chip chips.old records.old × Sane p }
    ensures { (zs : List ℕ) → length zs ≡ slots_length (layout_of g) → Ran (layout_of g) p
        (finish_steps (layout_of g) (images chips.old records.old zs))
        result (images chips.old records.old zs) (images chips.new records.new zs) }
{
    let co = collection_at(records, g);
    if co.phase == 1 {
        return end(chips, records, g, co.chip, co.destination, p);
    }
    if co.phase == 2 {
        let moves = move_all(chips, records, g, co, p);
        return end(chips, records, g, co.chip, co.victim, moves);
    }
    p
}

// Collects block v of chip c, which can be collected.
pub fn collect_chip(
    chips: &mut [u8],
    records: &mut [u8],
    slots: &[u8],
    work: &mut [u8],
    g: Geometry,
    c: usize,
    v: usize,
    p: Progress,
) -> Progress
    requires { Settled g chips.old records.old × (c ≤ g.n) × Sane p
        × (v < g.b) × (collectable (layout_of g) c (page_at (layout_of g) chips.old c) (record_at (layout_of g) records.old) v ≡ true)
        × SlotsFit g slots.now × (length work.old ≡ g.w) }
    ensures { Ran (layout_of g) p
        (collect_block (layout_of g) c v (images chips.old records.old slots.now))
        result (images chips.old records.old slots.now) (images chips.new records.new slots.now) }
{
    match clean_block_on(chips, g, c) {
        Some(d) => {
            let run = copy_block(chips, records, slots, work, g, c, v, d, p);
            // past a cut there is no phase 2 to finish
            if run.cut {
                return run;
            }
            finish(chips, records, g, run)
        }
        None => p,
    }
}

// Collects chip c where it has no place; its victim is v.
pub fn make_room(
    chips: &mut [u8],
    records: &mut [u8],
    slots: &[u8],
    work: &mut [u8],
    g: Geometry,
    c: usize,
    v: Option<usize>,
    p: Progress,
) -> Progress
    requires { Settled g chips.old records.old × (c ≤ g.n) × VictimFor g chips.old records.old c v × Sane p
        × SlotsFit g slots.now × (length work.old ≡ g.w) }
    ensures { Ran (layout_of g) p
        (room_steps (layout_of g) c (images chips.old records.old slots.now))
        result (images chips.old records.old slots.now) (images chips.new records.new slots.now) }
{
    if let Some(_) = place_on(chips, g, c) {
        return p;
    }
    match v {
        Some(b) => collect_chip(chips, records, slots, work, g, c, b, p),
        None => p,
    }
}
