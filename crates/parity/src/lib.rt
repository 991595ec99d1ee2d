//! What a commit stores: the new parity page at its place, and the record.

#![tactic(auto)]

ghost use Rattle.std.specs.Prelude.{◌≡◌, true, ◌≤◌, ◌<◌, length};
ghost use Rattle.octets.specs.Xor.{◌⊕◌};
ghost use Rattle.layout.specs.Layout.{layout_of, pages};
ghost use Rattle.layout.specs.Record.{record_at, has_slot};
ghost use Rattle.rules.specs.Sound.{record_sound};
ghost use Rattle.rules.specs.Parity.{committed as committedRecord, commit_at};
ghost use Rattle.steps.specs.Allowance.{most_reads, Sane, Ran, images};
ghost use Rattle.codec.specs.Fit.{ChipsFit, RecordsFit, SlotsFit};
ghost use Rattle.codec.specs.Views.{record_from, SmallRecord};
ghost use Rattle.parity.specs.Members.{members_in, parity_in};

use codec::{
    NO_SLOT, NONE, PARITY, Spare, StripeRecord, bit_of, parity_chip, record_at, slot_data,
};
use costs::{most_in_partial, set_bits};
use device::{program, store_record};
use fetch::View;
use layout::{Geometry, NO_CHIP};
use octets::copy;
use rules::Role;
use steps::Progress;

// XORs into work the old page of each member in the bitmap, or the current page of each other one, and answers how many were read.
fn gather_members(work: &mut [u8], view: &View<'_>, j: usize, e: StripeRecord, inside: bool) -> u64
    requires { (length work.old ≡ view.now.g.w) × (j < view.now.g.s)
        × (record_from (layout_of view.now.g) e ≡ record_at (layout_of view.now.g) view.now.records.now j) × (record_sound (layout_of view.now.g) (record_from (layout_of view.now.g) e) ≡ true) }
    ensures { (work.new ≡ work.old ⊕ (members_in view.now.g view.now.chips.now view.now.slots.now j e inside).bytes)
        × (result ≡ (members_in view.now.g view.now.chips.now view.now.slots.now j e inside).reads) × (result ≤ 42) }
{
    let n = view.g.n as usize;
    let mut reads = 0;
    for m in 0..n {
        if bit_of(e.bitmap, m) == inside {
            let role = if inside {
                Role::Old(m)
            } else {
                Role::Current(m)
            };
            let got = view.fetch(work, NO_CHIP, j, role, false);
            reads += got.reads;
        }
    }
    reads
}

// Work becomes the new parity of stripe j, and the answer is how many pages were read for it.
fn new_parity(work: &mut [u8], view: &View<'_>, j: usize, e: StripeRecord) -> u64
    requires { (length work.old ≡ view.now.g.w) × (j < view.now.g.s)
        × (record_from (layout_of view.now.g) e ≡ record_at (layout_of view.now.g) view.now.records.now j) × (record_sound (layout_of view.now.g) (record_from (layout_of view.now.g) e) ≡ true)
        × (has_slot (record_from (layout_of view.now.g) e) ≡ true) }
    ensures { (work.new ≡ (parity_in view.now.g view.now.chips.now view.now.slots.now j e).bytes)
        × (result ≡ (parity_in view.now.g view.now.chips.now view.now.slots.now j e).reads) × (result ≤ most_reads) }
{
    copy(work, slot_data(view.slots, view.g, e.slot));
    if most_in_partial(view.g.n as usize, set_bits(view.g, e.bitmap)) {
        return gather_members(work, view, j, e, false);
    }
    let role = Role::Parity;
    let got = view.fetch(work, NO_CHIP, j, role, false);
    got.reads + gather_members(work, view, j, e, true)
}

// The record with its new parity page q: no olds, no bitmap, no slot.
fn committed(e: StripeRecord, q: usize) -> StripeRecord
    requires { SmallRecord e × (q < 65536) }
    ensures { ((g : Geometry) → record_from (layout_of g) result ≡ committedRecord (layout_of g) q (record_from (layout_of g) e)) × SmallRecord result }
{
    let current = e.current;
    StripeRecord {
        current,
        old: [NONE; 6],
        parity: q,
        bitmap: 0,
        slot: NO_SLOT,
    }
}

// Commits stripe j at page q of its parity chip.
pub fn commit_at(
    chips: &mut [u8],
    records: &mut [u8],
    slots: &[u8],
    work: &mut [u8],
    g: Geometry,
    j: usize,
    q: usize,
    p: Progress,
) -> Progress
    requires { ChipsFit g chips.old × RecordsFit g records.old × SlotsFit g slots.now × (length work.old ≡ g.w) × (j < g.s) × (q < pages (layout_of g)) × Sane p
        × (record_sound (layout_of g) (record_at (layout_of g) records.old j) ≡ true) × (has_slot (record_at (layout_of g) records.old j) ≡ true) }
    ensures { Ran (layout_of g) p (commit_at (layout_of g) j q (images chips.old records.old slots.now))
        result (images chips.old records.old slots.now) (images chips.new records.new slots.now) }
{
    let e = record_at(records, g, j);
    let view = View {
        g,
        chips,
        records,
        slots,
    };
    let reads = new_parity(work, &view, j, e);
    let spare = Spare {
        kind: PARITY,
        member: 0,
        stripe: j,
        copied: NONE,
    };
    let run = program(chips, g, parity_chip(g, j), q, work, spare, reads, p);
    store_record(records, g, j, committed(e, q), run)
}
