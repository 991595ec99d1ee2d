//! What a write stores at its place: the page, the new partial parity in a free slot, the record.

#![tactic(auto)]

ghost use Rattle.std.specs.Prelude.{◌≡◌, true, ◌≤◌, ◌<◌, length};
ghost use Rattle.layout.specs.Layout.{layout_of, pages};
ghost use Rattle.layout.specs.Record.{record_at};
ghost use Rattle.rules.specs.Sound.{record_sound};
ghost use Rattle.rules.specs.Partial.{lowest_free_slot, written as writtenRecord, slot_steps, write_at};
ghost use Rattle.steps.specs.Allowance.{most_reads, Sane, Ran, images};
ghost use Rattle.codec.specs.Fit.{ChipsFit, RecordsFit, SlotsFit};
ghost use Rattle.codec.specs.Views.{record_from, SmallRecord};
ghost use Rattle.partial.specs.Feed.{partial_in};

use codec::{DATA, NO_SLOT, NONE, Spare, StripeRecord, bit_of, member_chip, record_at, slot_data};
use device::{program, store_record, store_slot};
use fetch::View;
use layout::{Geometry, NO_CHIP};
use octets::{copy, xor_into};
use rules::Role;
use steps::Progress;

// Work becomes the new partial parity of stripe j with the data of member m, and the answer is how many pages were read for it.
fn new_partial(
    work: &mut [u8],
    view: &View<'_>,
    j: usize,
    m: usize,
    bytes: &[u8],
    e: StripeRecord,
) -> u64
    requires { (length work.old ≡ view.now.g.w) × (length bytes.now ≡ view.now.g.w) × (j < view.now.g.s) × (m < view.now.g.n)
        × (record_from (layout_of view.now.g) e ≡ record_at (layout_of view.now.g) view.now.records.now j) × (record_sound (layout_of view.now.g) (record_from (layout_of view.now.g) e) ≡ true) }
    ensures { (work.new ≡ (partial_in view.now.g view.now.chips.now view.now.slots.now j m bytes.now e).bytes)
        × (result ≡ (partial_in view.now.g view.now.chips.now view.now.slots.now j m bytes.now e).reads) × (result ≤ most_reads) }
{
    if e.slot == NO_SLOT {
        copy(work, bytes);
        return 0;
    }
    copy(work, slot_data(view.slots, view.g, e.slot));
    let reads = if bit_of(e.bitmap, m) {
        let got = view.fetch(work, NO_CHIP, j, Role::Current(m), false);
        got.reads
    } else {
        0
    };
    xor_into(work, bytes);
    reads
}

// The record with page q as the current page of member m, in the partial parity of slot i.
fn written(e: StripeRecord, m: usize, q: usize, i: usize) -> StripeRecord
    requires { SmallRecord e × (m < 6) × (q < 65536) × (i < 256) }
    ensures { ((g : Geometry) → record_from (layout_of g) result ≡ writtenRecord (layout_of g) m q i (record_from (layout_of g) e)) × SmallRecord result }
{
    let mut next = e;
    if !bit_of(e.bitmap, m) {
        next.old[m] = e.current[m];
    }
    next.current[m] = q;
    next.bitmap = e.bitmap | (1 << m);
    next.slot = i;
    next
}

// Stores the new partial parity in the lowest free slot, and the record of stripe j, for a page that stands at q.
fn store_partial(
    chips: &[u8],
    records: &mut [u8],
    slots: &mut [u8],
    work: &mut [u8],
    g: Geometry,
    j: usize,
    m: usize,
    bytes: &[u8],
    q: usize,
    free: Option<usize>,
    p: Progress,
) -> Progress
    requires { ChipsFit g chips.now × RecordsFit g records.old × SlotsFit g slots.old × (length work.old ≡ g.w) × (j < g.s) × (m < g.n) × (length bytes.now ≡ g.w)
        × (q < pages (layout_of g)) × (record_sound (layout_of g) (record_at (layout_of g) records.old j) ≡ true) × Sane p
        × (free ≡ lowest_free_slot (layout_of g) (record_at (layout_of g) records.old)) }
    ensures { Ran (layout_of g) p (slot_steps (layout_of g) j m bytes.now q (images chips.now records.old slots.old))
        result (images chips.now records.old slots.old) (images chips.now records.new slots.new) }
{
    match free {
        Some(i) => {
            let e = record_at(records, g, j);
            let view = View {
                g,
                chips,
                records,
                slots,
            };
            let reads = new_partial(work, &view, j, m, bytes, e);
            let run = store_slot(slots, g, i, work, reads, p);
            store_record(records, g, j, written(e, m, q, i), run)
        }
        None => p,
    }
}

// Writes member m of stripe j at page q of its chip; free is the lowest free slot.
pub fn write_at(
    chips: &mut [u8],
    records: &mut [u8],
    slots: &mut [u8],
    work: &mut [u8],
    g: Geometry,
    j: usize,
    m: usize,
    bytes: &[u8],
    q: usize,
    free: Option<usize>,
    p: Progress,
) -> Progress
    requires { ChipsFit g chips.old × RecordsFit g records.old × SlotsFit g slots.old × (length work.old ≡ g.w) × (j < g.s) × (m < g.n) × (length bytes.now ≡ g.w)
        × (q < pages (layout_of g)) × (record_sound (layout_of g) (record_at (layout_of g) records.old j) ≡ true) × Sane p
        × (free ≡ lowest_free_slot (layout_of g) (record_at (layout_of g) records.old)) }
    ensures { Ran (layout_of g) p (write_at (layout_of g) j m bytes.now q (images chips.old records.old slots.old))
        result (images chips.old records.old slots.old) (images chips.new records.new slots.new) }
{
    let spare = Spare {
        kind: DATA,
        member: m,
        stripe: j,
        copied: NONE,
    };
    let run = program(chips, g, member_chip(g, j, m), q, bytes, spare, 0, p);
    store_partial(chips, records, slots, work, g, j, m, bytes, q, free, run)
}
