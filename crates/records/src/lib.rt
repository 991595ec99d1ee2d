//! The checks of the records.

#![tactic(auto)]

ghost use Rattle.std.specs.Prelude.{◌≡◌, true, ℕ, ◌+◌, ◌≤◌, ◌<◌};
ghost use Rattle.ranges.specs.Look.{first_below, found_in};
ghost use Rattle.layout.specs.Layout.{layout_of, limits};
ghost use Rattle.layout.specs.Record.{Record, record_at};
ghost use Rattle.layout.specs.Collection.{collection_at};
ghost use Rattle.rules.specs.Sound.{member_sound, record_sound, collection_sound, records_sound};
ghost use Rattle.codec.specs.Fit.{RecordsFit};
ghost use Rattle.codec.specs.Views.{record_from};
ghost use Rattle.records.specs.Slots.{slot_scan, Tallied, Adds, unmarked};
ghost use Rattle.names.specs.Stamps.{record_names, names_lost, names_kept};

use codec::scan::{glance_at, ranges, seen_full};
use codec::{
    NO_SLOT, NONE, StripeRecord, bit_of, collection_at, collection_ends, record_at, record_ends,
};
use costs::{cost_of, set_bits};
use layout::Geometry;
use names::names_on;
use ranges::{Least, found_in, no_least, ones, with_next};

// Whether the record is sound about member m.
fn member_passes(g: Geometry, e: StripeRecord, m: usize) -> bool
    requires { (limits (layout_of g) ≡ true) × (m < 6) }
    ensures { result ≡ member_sound (layout_of g) (record_from (layout_of g) e) m }
{
    let pages = (g.b * g.k) as usize;
    let n = g.n as usize;
    let current = e.current[m];
    let old = e.old[m];
    let bit = bit_of(e.bitmap, m);
    let unwritten = current == NONE;
    let no_old = old == NONE;
    (unwritten | (current < pages))
        & (no_old | (old < pages))
        & ((m < n) | (unwritten & no_old))
        & (no_old | bit)
        & (!bit | (!unwritten & !(current == old)))
        & ((no_old & (unwritten | bit)) | !(e.parity == NONE))
}

// Whether a record is sound by itself, but for the zeros behind it.
fn record_passes(g: Geometry, e: StripeRecord) -> bool
    requires { limits (layout_of g) ≡ true }
    ensures { result ≡ record_sound (layout_of g) (record_from (layout_of g) e) }
{
    let n = g.n as usize;
    let most = g.m as usize;
    let pages = (g.b * g.k) as usize;
    let mut members = true;
    for m in 0..6 {
        members = members & member_passes(g, e, m);
    }
    let slot = if e.bitmap == 0 {
        e.slot == NO_SLOT
    } else {
        e.slot <= most
    };
    members & ((e.parity == NONE) | (e.parity < pages)) & (e.bitmap < (1 << n)) & slot
}

// How many page numbers a record has.
fn names_of(e: StripeRecord) -> usize
    ensures { ((g : Geometry) → result ≡ record_names (layout_of g) (record_from (layout_of g) e)) × (result ≤ 13) }
{
    let mut names: usize = 0;
    for m in 0..6 {
        names += ones(e.current[m] != NONE) + ones(e.old[m] != NONE);
    }
    names + ones(e.parity != NONE)
}

// Whether the collection record is sound.
fn collection_passes(g: Geometry, records: &[u8]) -> bool
    requires { RecordsFit g records.now }
    ensures { result ≡ collection_sound (layout_of g) (collection_at (layout_of g) records.now) }
{
    let n = g.n as usize;
    let b = g.b as usize;
    let ends = collection_ends(records, g);
    let co = collection_at(records, g);
    if co.phase == 0 {
        return ends & ((co.chip == 0) & (co.victim == 0) & (co.destination == 0));
    }
    ends & ((co.phase <= 2)
        & (co.chip <= n)
        & (co.victim < b)
        & (co.destination < b)
        & !(co.victim == co.destination))
}

// What the records tell of the slots.
#[derive(Clone, Copy)]
pub struct SlotScan {
    // how many records have one
    pub slotted: usize,
    // the stripe of least cost among them
    pub cheapest: Option<usize>,
    // the lowest free slot
    pub free: Option<usize>,
}

// What a pass over the records brings. Names and slots are told of records that are not sound too (`scan_records`).
#[derive(Clone, Copy)]
pub struct RecordsScan {
    pub sound: bool,
    // page numbers of all records on the chips that are there
    pub names: usize,
    pub slots: SlotScan,
}

// What is known of the records passed. No option: slots are counted of records that are not sound too.
#[derive(Clone, Copy)]
struct Tally {
    // each is sound by itself
    sound: bool,
    // no slot in two of them
    own: bool,
    // how many have a slot
    slotted: usize,
    // the stripe of least cost among those
    cheapest: Option<Least>,
}

// The tally before the first record. No Default, for its contract says what it begins.
fn no_tally() -> Tally
    ensures { (g : Geometry) (r : ℕ → Record) → Tallied (layout_of g) r 0 result }
{
    let cheapest = no_least();
    Tally {
        sound: true,
        own: true,
        slotted: 0,
        cheapest,
    }
}

// The tally with record j: whether it ends in zeros, and whether its slot is taken, by a record before it.
fn with_record(g: Geometry, j: usize, e: StripeRecord, ends: bool, taken: bool, t: Tally) -> Tally
    requires { (limits (layout_of g) ≡ true) × (t.slotted < 65536) }
    ensures { Adds (layout_of g) j e ends taken t result }
{
    let sound = t.sound & (ends & record_passes(g, e));
    let least = t.cheapest;
    if e.slot == NO_SLOT {
        return Tally {
            sound,
            own: t.own,
            slotted: t.slotted,
            cheapest: least,
        };
    }
    let cheapest = with_next(least, j, true, cost_of(g.n as usize, set_bits(g, e.bitmap)));
    Tally {
        sound,
        own: t.own & !taken,
        slotted: t.slotted + 1,
        cheapest,
    }
}

// How many page numbers the record of stripe j has on the lost chip.
fn names_lost(records: &[u8], g: Geometry, lost: usize, j: usize) -> usize
    requires { RecordsFit g records.now × (j < g.s) }
    ensures { result ≡ names_lost (layout_of g) (record_at (layout_of g) records.now) lost j }
{
    if (g.n as usize) < lost {
        return 0;
    }
    names_on(records, g, lost, j)
}

// The lowest of the slots 0 to m that is not marked.
fn lowest_unmarked(marks: &[bool; 256], m: usize) -> Option<usize>
    requires { m ≤ 254 }
    ensures { result ≡ first_below (m + 1) (unmarked marks.now) }
{
    for i in 0..m + 1 {
        if !marks[i] {
            return Some(i);
        }
    }
    None
}

// What the tally of all records and the table of the slots seen tell of the slots 0 to m.
fn slots_told(t: Tally, seen: &[bool; 256], m: usize) -> SlotScan
    requires { m ≤ 254 }
    ensures { result ≡ record { slotted = t.slotted; cheapest = found_in t.cheapest; free = first_below (m + 1) (unmarked seen.now) } }
{
    let least = t.cheapest;
    let cheapest = found_in(least);
    SlotScan {
        slotted: t.slotted,
        cheapest,
        free: lowest_unmarked(seen, m),
    }
}

// Whether the records are sound, how many page numbers they have on the chips that are there, and what they tell of the slots: one pass,
// with a table of the slots seen. Of a record that is found plain only the page numbers matter, and of a full stripe they need no count.
pub fn scan_records(g: Geometry, records: &[u8], lost: usize) -> RecordsScan
    requires { RecordsFit g records.now }
    ensures { (result.sound ≡ records_sound (layout_of g) (record_at (layout_of g) records.now) (collection_at (layout_of g) records.now))
        × (result.names ≡ names_kept (layout_of g) (record_at (layout_of g) records.now) lost)
        × (result.slots ≡ slot_scan (layout_of g) (record_at (layout_of g) records.now)) }
{
    let s = g.s as usize;
    let n = g.n as usize;
    let most = g.m as usize;
    let tops = ranges(g);
    // those of a full stripe on the chips that are there
    let full = if n < lost { n + 1 } else { n };
    let mut seen = [false; 256];
    let mut tally = no_tally();
    let mut names: usize = 0;
    for j in 0..s {
        if seen_full(records, g, j, &tops) {
            names += full;
        } else {
            let look = glance_at(records, g, j, &tops);
            let gone = names_lost(records, g, lost, j);
            if let Some(here) = look {
                names += here - gone;
            } else {
                let e = record_at(records, g, j);
                let ends = record_ends(records, g, j);
                let slot = e.slot;
                let next = with_record(g, j, e, ends, seen[slot], tally);
                tally = next;
                seen[slot] = true;
                names += names_of(e) - gone;
            }
        }
    }
    let sound = tally.sound & tally.own & (tally.slotted <= most) & collection_passes(g, records);
    let slots = slots_told(tally, &seen, most);
    RecordsScan {
        sound,
        names,
        slots,
    }
}
