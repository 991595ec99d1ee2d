//! The calls of the store. Each answers what its definition says, for any numbers and any buffers: the look at the images, the refusal,
//! the run.

#![tactic(auto)]

ghost use Rattle.std.specs.Prelude.{◌≡◌, [], ◌∷◌};
ghost use Rattle.layout.specs.Layout.{layout_of};
ghost use Rattle.rules.specs.declared.Refusal.TheVariants.{Request};
ghost use Rattle.rules.specs.Refusals.{checked, page_rows, chip_set_row};
ghost use Rattle.rules.specs.Calls.{Outcome, ReadOutcome, format_call, open_call, write_call, commit_call, collect_call, read_call};
ghost use Rattle.steps.specs.Allowance.{images};

use answers::answer;
use codec::{NO_SLOT, parity_chip, slot_at};
use collect::{collect_chip, finish};
use commit::commit_stripe;
use device::start;
use fetch::View;
use format::format_all;
use layout::{Geometry, NO_CHIP};
use looks::{buffers_check, images_look, page_fits, require, settled_look};
use rules::{Answer, Check, Reading, Refusal};
use space::victim_in;
use steps::Counts;
use write::write_member;

// Makes the images an empty store.
pub fn format(
    g: Geometry,
    chips: &mut [u8],
    records: &mut [u8],
    slots: &[u8],
    allowance: u64,
) -> Result<Answer, Refusal>
    ensures { ◌≡◌ {A = Outcome}
        (record { answer = result; images = images chips.new records.new slots.now })
        (format_call (layout_of g) (images chips.old records.old slots.now) allowance) }
{
    buffers_check(g, chips, records, slots)?;
    Ok(answer(format_all(chips, records, g, start(allowance))))
}

// Finishes a collection that a cut left under way.
pub fn open(
    g: Geometry,
    chips: &mut [u8],
    records: &mut [u8],
    slots: &[u8],
    lost: u64,
    allowance: u64,
) -> Result<Answer, Refusal>
    ensures { ◌≡◌ {A = Outcome}
        (record { answer = result; images = images chips.new records.new slots.now })
        (open_call (layout_of g) (images chips.old records.old slots.now) lost allowance) }
{
    images_look(g, chips, records, slots, lost as usize)?;
    if lost != NO_CHIP as u64 {
        return Ok(answer(start(allowance)));
    }
    Ok(answer(finish(chips, records, g, start(allowance))))
}

// Rows 7 and 8 of read and write.
fn page_check(g: Geometry, page: u64, len: usize) -> Check
    ensures { result ≡ checked (page_rows (layout_of g) page len) }
{
    require(page_fits(g, page), Refusal::Request)?;
    require(len == g.w as usize, Refusal::Data)
}

// Rows 7 and 9 of commit and collect.
fn free_check(fits: bool, lost: u64) -> Check
    ensures { result ≡ checked ((fits, Request) ∷ chip_set_row lost ∷ []) }
{
    require(fits, Refusal::Request)?;
    require(lost == NO_CHIP as u64, Refusal::ChipSet)
}

// Fills the buffer with a page.
pub fn read(
    g: Geometry,
    chips: &[u8],
    records: &[u8],
    slots: &[u8],
    lost: u64,
    page: u64,
    buffer: &mut [u8],
) -> Result<Reading, Refusal>
    ensures { ◌≡◌ {A = ReadOutcome}
        (record { answer = result; buffer = buffer.new })
        (read_call (layout_of g) (images chips.now records.now slots.now) lost page buffer.old) }
{
    images_look(g, chips, records, slots, lost as usize)?;
    page_check(g, page, buffer.len())?;
    let j = (page / g.n) as usize;
    let m = (page % g.n) as usize;
    let view = View {
        g,
        chips,
        records,
        slots,
    };
    let got = view.read_member(buffer, lost as usize, j, m);
    let counts = Counts::of_reads(got.reads);
    let origin = got.origin;
    Ok(Reading { counts, origin })
}

// Writes a page.
pub fn write(
    g: Geometry,
    chips: &mut [u8],
    records: &mut [u8],
    slots: &mut [u8],
    lost: u64,
    page: u64,
    bytes: &[u8],
    allowance: u64,
) -> Result<Answer, Refusal>
    ensures { ◌≡◌ {A = Outcome}
        (record { answer = result; images = images chips.new records.new slots.new })
        (write_call (layout_of g) (images chips.old records.old slots.old) lost page bytes.now allowance) }
{
    let look = settled_look(g, chips, records, slots, lost as usize)?;
    page_check(g, page, bytes.len())?;
    require(lost == NO_CHIP as u64, Refusal::ChipSet)?;
    let j = (page / g.n) as usize;
    let m = (page % g.n) as usize;
    let scans = look.chips;
    let seen = look.slots;
    let mut work = [0u8; 4096];
    let w = g.w as usize;
    Ok(answer(write_member(
        chips,
        records,
        slots,
        &mut work[0..w],
        g,
        j,
        m,
        bytes,
        scans,
        seen,
        start(allowance),
    )))
}

// Commits a stripe: its partial parity becomes a parity page, and its slot is free.
pub fn commit(
    g: Geometry,
    chips: &mut [u8],
    records: &mut [u8],
    slots: &[u8],
    lost: u64,
    stripe: u64,
    allowance: u64,
) -> Result<Answer, Refusal>
    ensures { ◌≡◌ {A = Outcome}
        (record { answer = result; images = images chips.new records.new slots.now })
        (commit_call (layout_of g) (images chips.old records.old slots.now) lost stripe allowance) }
{
    let look = settled_look(g, chips, records, slots, lost as usize)?;
    free_check(stripe < g.s, lost)?;
    let j = stripe as usize;
    require(slot_at(records, g, j) != NO_SLOT, Refusal::Work)?;
    let v = victim_in(look.chips[parity_chip(g, j)]);
    let mut work = [0u8; 4096];
    let w = g.w as usize;
    let run = start(allowance);
    Ok(answer(commit_stripe(chips, records, slots, &mut work[0..w], g, j, v, run)))
}

// Collects a chip: one full block becomes clean.
pub fn collect(
    g: Geometry,
    chips: &mut [u8],
    records: &mut [u8],
    slots: &[u8],
    lost: u64,
    chip: u64,
    allowance: u64,
) -> Result<Answer, Refusal>
    ensures { ◌≡◌ {A = Outcome}
        (record { answer = result; images = images chips.new records.new slots.now })
        (collect_call (layout_of g) (images chips.old records.old slots.now) lost chip allowance) }
{
    let look = settled_look(g, chips, records, slots, lost as usize)?;
    free_check(chip <= g.n, lost)?;
    let c = chip as usize;
    let v = victim_in(look.chips[c]).ok_or(Refusal::Work)?;
    let mut work = [0u8; 4096];
    let w = g.w as usize;
    let p = start(allowance);
    Ok(answer(collect_chip(chips, records, slots, &mut work[0..w], g, c, v, p)))
}
