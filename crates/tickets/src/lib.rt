//! Tickets: one more at the end of the log, and what stands for a lot and bag.

#![tactic(auto)]

ghost use Rattle.std.specs.Prelude.{◌≡◌, true, [], ◌∷◌, ℕ, ◌<◌, eqb, length};
ghost use Rattle.layout.specs.Layout.{layout_of};
ghost use Rattle.layout.specs.Record.{record_at};
ghost use Rattle.steps.specs.Allowance.{images, Sane, Ran};
ghost use Rattle.rules.specs.declared.Refusal.TheVariants.{Data, Tickets};
ghost use Rattle.rules.specs.Tickets.{ticket_bytes, ticket_of, ticket_sound};
ghost use Rattle.rules.specs.Log.{places, falls_in, with_ticket, contents};
ghost use Rattle.rules.specs.Sound.{record_sound};
ghost use Rattle.rules.specs.Write.{write_steps};
ghost use Rattle.rules.specs.Refusals.{checked, chip_set_row};
ghost use Rattle.rules.specs.Calls.{Outcome, add_call, find_call};
ghost use Rattle.codec.specs.Fit.{SlotsFit};
ghost use Rattle.names.specs.Checked.{Settled};
ghost use Rattle.records.specs.Slots.{slot_scan};
ghost use Rattle.space.specs.Victims.{Victims};

use answers::answer;
use device::start_after;
use fetch::View;
use layout::{Geometry, NO_CHIP};
use looks::{images_look, require, settled_look};
use records::SlotScan;
use rules::{Answer, Check, Finding, Refusal};
use spares::ChipScan;
use steps::{Counts, Progress};
use ticket_log::{TICKET, is_sound, put_ticket, ticket_in, walk_log};
use write::write_member;

// Rows 8, 9 and 11 of an addition as far as they are about what is given.
fn given_check(ticket: &[u8], lost: u64) -> Check
    ensures { result ≡ checked ((eqb (length ticket.now) ticket_bytes, Data) ∷ chip_set_row lost
        ∷ (ticket_sound (ticket_of ticket.now), Tickets) ∷ []) }
{
    require(ticket.len() == TICKET, Refusal::Data)?;
    require(lost == NO_CHIP as u64, Refusal::ChipSet)?;
    require(is_sound(ticket_in(ticket, 0)), Refusal::Tickets)
}

// Writes the page that place t falls in, with the ticket there.
fn append(
    chips: &mut [u8],
    records: &mut [u8],
    slots: &mut [u8],
    page: &mut [u8],
    g: Geometry,
    lost: usize,
    t: usize,
    ticket: &[u8],
    scans: [ChipScan; 7],
    seen: SlotScan,
    p: Progress,
) -> Progress
    requires { Settled g chips.old records.old × SlotsFit g slots.old × (length page.old ≡ g.w) × (t < places (layout_of g))
        × (length ticket.now ≡ ticket_bytes) × Sane p
        × Victims g chips.old records.old scans × (seen ≡ slot_scan (layout_of g) (record_at (layout_of g) records.old))
        × ((j : ℕ) → j < g.s → record_sound (layout_of g) (record_at (layout_of g) records.old j) ≡ true) }
    ensures { Ran (layout_of g) p
        (write_steps (layout_of g) (falls_in (layout_of g) t)
        (with_ticket (layout_of g) (contents (layout_of g) (images chips.old records.old slots.old) lost) ticket.now t)
        (images chips.old records.old slots.old))
        result (images chips.old records.old slots.old) (images chips.new records.new slots.new) }
{
    let w = g.w as usize;
    let per_page = w / TICKET;
    let i = t / per_page;
    let j = i / g.n as usize;
    let m = i % g.n as usize;
    let view = View {
        g,
        chips,
        records,
        slots,
    };
    // its read is among those of the walk
    let _got = view.fetch_member(page, lost, j, m);
    put_ticket(page, t % per_page, ticket);
    let mut work = [0u8; 4096];
    let fresh = &mut work[0..w];
    write_member(chips, records, slots, fresh, g, j, m, page, scans, seen, p)
}

// Adds a ticket at the end of the log.
pub fn add(
    g: Geometry,
    chips: &mut [u8],
    records: &mut [u8],
    slots: &mut [u8],
    lost: u64,
    ticket: &[u8],
    allowance: u64,
) -> Result<Answer, Refusal>
    ensures { ◌≡◌ {A = Outcome}
        (record { answer = result; images = images chips.new records.new slots.new })
        (add_call (layout_of g) (images chips.old records.old slots.old) lost ticket.now allowance) }
{
    let chip = lost as usize;
    let look = settled_look(g, chips, records, slots, chip)?;
    given_check(ticket, lost)?;
    let mut page = [0u8; 4096];
    let w = g.w as usize;
    let view = View {
        g,
        chips,
        records,
        slots,
    };
    let log = walk_log(&mut page[0..w], &view, chip, 0, 0).ok_or(Refusal::Tickets)?;
    let t = log.end.ok_or(Refusal::FullLog)?;
    let scans = look.chips;
    let seen = look.slots;
    let p = start_after(log.reads, allowance);
    Ok(answer(append(
        chips,
        records,
        slots,
        &mut page[0..w],
        g,
        chip,
        t,
        ticket,
        scans,
        seen,
        p,
    )))
}

// Finds the weight that stands for a lot and bag.
pub fn find(
    g: Geometry,
    chips: &[u8],
    records: &[u8],
    slots: &[u8],
    lost: u64,
    lot: u32,
    bag: u16,
) -> Result<Finding, Refusal>
    ensures { result ≡ find_call (layout_of g) (images chips.now records.now slots.now) lost lot bag }
{
    let chip = lost as usize;
    images_look(g, chips, records, slots, chip)?;
    let mut page = [0u8; 4096];
    let w = g.w as usize;
    let view = View {
        g,
        chips,
        records,
        slots,
    };
    let log = walk_log(&mut page[0..w], &view, chip, lot, bag).ok_or(Refusal::Tickets)?;
    let counts = Counts::of_reads(log.reads);
    let standing = log.standing;
    let origin = log.origin;
    Ok(Finding {
        counts,
        standing,
        origin,
    })
}
