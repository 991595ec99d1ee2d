//! A write as a whole: the commit that may be owed, room on the member's chip, the place, and what is stored there.

#![tactic(auto)]

ghost use Rattle.std.specs.Prelude.{◌≡◌, true, false, ℕ, ◌<◌, length, get_or, Some, None};
ghost use Rattle.ranges.specs.Look.{count_below, when_found, found_in};
ghost use Rattle.layout.specs.Layout.{layout_of, limits};
ghost use Rattle.layout.specs.Rotation.{member_chip, parity_chip};
ghost use Rattle.layout.specs.Record.{record_at, slotted as slottedAt};
ghost use Rattle.rules.specs.Room.{placed};
ghost use Rattle.rules.specs.Partial.{lowest_free_slot, write_at};
ghost use Rattle.rules.specs.Write.{commit_owed, owed_steps, write_member};
ghost use Rattle.steps.specs.Allowance.{Sane, Ran, images};
ghost use Rattle.codec.specs.Fit.{RecordsFit, SlotsFit};
ghost use Rattle.names.specs.Checked.{Settled};
ghost use Rattle.records.specs.Slots.{slot_scan};
ghost use Rattle.spares.specs.Scans.{unscanned};
ghost use Rattle.space.specs.Victims.{VictimFor, Victims};
ghost use Rattle.write.specs.Slots.{lower_of};

use codec::{NO_SLOT, member_chip, parity_chip, slot_at};
use collect::make_room;
use commit::commit_stripe;
use layout::Geometry;
use partial::write_at;
use records::SlotScan;
use space::{place_on, victim_in, victim_on};
use spares::ChipScan;
use steps::Progress;

// Whether stripe j has no slot and M records have; slotted is how many have one.
fn is_owed(records: &[u8], g: Geometry, j: usize, slotted: usize) -> bool
    requires { RecordsFit g records.now × (j < g.s) × (slotted ≡ count_below g.s (slottedAt (record_at (layout_of g) records.now))) }
    ensures { result ≡ commit_owed (layout_of g) (record_at (layout_of g) records.now) j }
{
    (slot_at(records, g, j) == NO_SLOT) & (slotted == g.m as usize)
}

// The lower of the free slot, if any, and slot t.
fn lower(free: Option<usize>, t: usize) -> Option<usize>
    ensures { result ≡ lower_of free t }
{
    match free {
        Some(i) => if i < t { Some(i) } else { Some(t) },
        None => Some(t),
    }
}

// The victim of the chip that the parity of the cheapest stripe is on.
fn commit_victim(g: Geometry, scans: [ChipScan; 7], cheapest: Option<usize>) -> Option<usize>
    requires { limits (layout_of g) ≡ true }
    ensures { result ≡ when_found cheapest (λ k. found_in (get_or scans (parity_chip (layout_of g) k) unscanned).victim) None }
{
    match cheapest {
        Some(k) => victim_in(scans[parity_chip(g, k)]),
        None => None,
    }
}

// What the commit leaves that is owed before a write.
#[derive(Clone, Copy)]
struct Owed {
    run: Progress,
    // the lowest free slot, where the run is not cut
    free: Option<usize>,
}

// Commits the stripe of least cost, which is owed for a write to stripe j; v is the victim of its parity chip. Its slot is free then.
fn commit_owed(
    chips: &mut [u8],
    records: &mut [u8],
    slots: &[u8],
    work: &mut [u8],
    g: Geometry,
    j: usize,
    v: Option<usize>,
    seen: SlotScan,
    p: Progress,
) -> Owed
    requires { Settled g chips.old records.old × SlotsFit g slots.now × (length work.old ≡ g.w) × Sane p
        × (commit_owed (layout_of g) (record_at (layout_of g) records.old) j ≡ true)
        × ((k : ℕ) → seen.cheapest ≡ Some k → VictimFor g chips.old records.old (parity_chip (layout_of g) k) v)
        × (seen ≡ slot_scan (layout_of g) (record_at (layout_of g) records.old)) }
    ensures { Ran (layout_of g) p (owed_steps (layout_of g) j (images chips.old records.old slots.now))
        result.run (images chips.old records.old slots.now) (images chips.new records.new slots.now)
        × (result.run.cut ≡ false → result.free ≡ lowest_free_slot (layout_of g) (record_at (layout_of g) records.new)) }
{
    let cheapest = seen.cheapest;
    let free = seen.free;
    match cheapest {
        Some(k) => {
            let t = slot_at(records, g, k);
            let run = commit_stripe(chips, records, slots, work, g, k, v, p);
            Owed {
                run,
                free: lower(free, t),
            }
        }
        None => Owed { run: p, free },
    }
}

// Finds a place for member m of stripe j and writes it there; free is the lowest free slot. The victim of its chip is v, or is looked for
// anew here, so that the arrays of that look do not stand on the stack below the whole write. An option of an option would be no plainer.
fn place_member(
    chips: &mut [u8],
    records: &mut [u8],
    slots: &mut [u8],
    work: &mut [u8],
    g: Geometry,
    j: usize,
    m: usize,
    bytes: &[u8],
    anew: bool,
    v: Option<usize>,
    free: Option<usize>,
    p: Progress,
) -> Progress
    requires { Settled g chips.old records.old × SlotsFit g slots.old × (length work.old ≡ g.w) × (j < g.s) × (m < g.n) × (length bytes.now ≡ g.w) × Sane p
        × (anew ≡ false → VictimFor g chips.old records.old (member_chip (layout_of g) j m) v)
        × (free ≡ lowest_free_slot (layout_of g) (record_at (layout_of g) records.old)) }
    ensures { Ran (layout_of g) p
        (placed (layout_of g) (member_chip (layout_of g) j m) (write_at (layout_of g) j m bytes.now) (images chips.old records.old slots.old))
        result (images chips.old records.old slots.old) (images chips.new records.new slots.new) }
{
    let c = member_chip(g, j, m);
    let mut victim = v;
    if anew {
        victim = victim_on(chips, records, g, c);
    }
    let run = make_room(chips, records, slots, work, g, c, victim, p);
    // past a cut there may be no place yet
    if run.cut {
        return run;
    }
    match place_on(chips, g, c) {
        Some(q) => write_at(chips, records, slots, work, g, j, m, bytes, q, free, run),
        None => run,
    }
}

// Writes member m of stripe j, where the victim of each chip is known, and what the records tell of the slots.
pub fn write_member(
    chips: &mut [u8],
    records: &mut [u8],
    slots: &mut [u8],
    work: &mut [u8],
    g: Geometry,
    j: usize,
    m: usize,
    bytes: &[u8],
    scans: [ChipScan; 7],
    seen: SlotScan,
    p: Progress,
) -> Progress
    requires { Settled g chips.old records.old × SlotsFit g slots.old × (length work.old ≡ g.w) × (j < g.s) × (m < g.n) × (length bytes.now ≡ g.w) × Sane p
        × Victims g chips.old records.old scans × (seen ≡ slot_scan (layout_of g) (record_at (layout_of g) records.old)) }
    ensures { Ran (layout_of g) p
        (write_member (layout_of g) j m bytes.now (images chips.old records.old slots.old))
        result (images chips.old records.old slots.old) (images chips.new records.new slots.new) }
{
    let v = victim_in(scans[member_chip(g, j, m)]);
    let cheapest = seen.cheapest;
    let u = commit_victim(g, scans, cheapest);
    if !is_owed(records, g, j, seen.slotted) {
        let i = seen.free;
        return place_member(chips, records, slots, work, g, j, m, bytes, false, v, i, p);
    }
    let owed = commit_owed(chips, records, slots, work, g, j, u, seen, p);
    let run = owed.run;
    // past a cut no store is made, and the images are not those that the next part is worked out from
    if run.cut {
        return run;
    }
    let i = owed.free;
    // a commit changes what the records name, and so the victims
    place_member(chips, records, slots, work, g, j, m, bytes, true, v, i, run)
}
