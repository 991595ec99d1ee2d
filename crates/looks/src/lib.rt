//! The look at the images with which every call begins: what the rows of the table about them come to, and what the one pass over
//! records and spares has found.

#![tactic(auto)]

ghost use Rattle.std.specs.Prelude.{◌≡◌, ◌*◌, ltb, Ok};
ghost use Rattle.layout.specs.Layout.{layout_of};
ghost use Rattle.rules.specs.Refusals.{unless, checked, buffers_rows, images_rows, settled_rows};
ghost use Rattle.steps.specs.Allowance.{images};
ghost use Rattle.looks.specs.Looks.{below, look_of};

use codec::collection_at;
use codec::limits::{geometry_passes, lengths_pass};
use layout::{Geometry, NO_CHIP};
use records::{SlotScan, scan_records};
use rules::{Check, Refusal};
use spares::{ChipScan, scan_spares};

// What the look has found, where the rows pass.
#[derive(Clone, Copy)]
pub struct Look {
    // of each chip but the lost one
    pub chips: [ChipScan; 7],
    // of the records
    pub slots: SlotScan,
}

// A row of the table: the test that a call has to pass, and its refusal where it does not.
pub fn require(test: bool, r: Refusal) -> Check
    ensures { result ≡ unless test r (Ok tt) }
{
    if test { Ok(()) } else { Err(r) }
}

// Rows 1 and 2 of the table of refusals.
pub fn buffers_check(g: Geometry, chips: &[u8], records: &[u8], slots: &[u8]) -> Check
    ensures { result ≡ checked (buffers_rows (layout_of g) (images chips.now records.now slots.now)) }
{
    require(geometry_passes(g), Refusal::Geometry)?;
    require(lengths_pass(g, chips, records, slots), Refusal::Buffers)
}

// Rows 1 to 5.
pub fn images_look(
    g: Geometry,
    chips: &[u8],
    records: &[u8],
    slots: &[u8],
    lost: usize,
) -> Result<Look, Refusal>
    ensures { result ≡ look_of (layout_of g) (images chips.now records.now slots.now) lost
        (checked (images_rows (layout_of g) (images chips.now records.now slots.now) lost)) }
{
    buffers_check(g, chips, records, slots)?;
    let named = (lost == NO_CHIP) | (lost <= g.n as usize);
    require(named, Refusal::LostChip)?;
    let scan = scan_records(g, records, lost);
    require(scan.sound, Refusal::Records)?;
    let co = collection_at(records, g);
    let survey = scan_spares(chips, records, g, co, scan.names, lost);
    require(survey.sound, Refusal::Spares)?;
    let scans = survey.chips;
    let seen = scan.slots;
    Ok(Look {
        chips: scans,
        slots: seen,
    })
}

// Rows 1 to 6.
pub fn settled_look(
    g: Geometry,
    chips: &[u8],
    records: &[u8],
    slots: &[u8],
    lost: usize,
) -> Result<Look, Refusal>
    ensures { result ≡ look_of (layout_of g) (images chips.now records.now slots.now) lost
        (checked (settled_rows (layout_of g) (images chips.now records.now slots.now) lost)) }
{
    let look = images_look(g, chips, records, slots, lost)?;
    let co = collection_at(records, g);
    require(co.phase == 0, Refusal::Collection)?;
    Ok(look)
}

// A row more below those that came to a check.
pub fn also(above: Check, test: bool, r: Refusal) -> Check
    ensures { result ≡ below above (unless test r (Ok tt)) }
{
    match above {
        Ok(()) => require(test, r),
        Err(first) => Err(first),
    }
}

// Whether there is such a logical page, in any geometry.
pub fn page_fits(g: Geometry, page: u64) -> bool
    ensures { result ≡ ltb page (g.n * g.s) }
{
    if g.n == 0 {
        return false;
    }
    page / g.n < g.s
}
