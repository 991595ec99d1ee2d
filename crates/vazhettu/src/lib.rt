//! The calls for C and Rust: slices as pointer and length, the answer as a struct of numbers. They are alike but for what C passes.

#![tactic(auto)]

ghost use Rattle.std.specs.Prelude.{◌≡◌};
ghost use Rattle.layout.specs.Layout.{layout_of};
ghost use Rattle.steps.specs.Allowance.{images};
ghost use Rattle.rules.specs.Calls.{format_call, open_call, write_call, commit_call, collect_call, read_call, add_call, find_call};
ghost use Rattle.answers.specs.Reports.{find_reported};
ghost use Rattle.vazhettu.specs.Reports.{Reported, reported_of, ReadReported, read_reported_of};

use answers::{FindReport, ReadReport, Report};
use layout::Geometry;

// See calls::format.
#[unsafe(no_mangle)]
pub extern "C" fn vazhettu_format(
    g: Geometry,
    chips: &mut [u8],
    records: &mut [u8],
    slots: &[u8],
    allowance: u64,
) -> Report
    ensures { ◌≡◌ {A = Reported}
        (record { report = result; images = images chips.new records.new slots.now })
        (reported_of (format_call (layout_of g) (images chips.old records.old slots.now) allowance)) }
{
    Report::from(calls::format(g, chips, records, slots, allowance))
}

// See calls::open.
#[unsafe(no_mangle)]
pub extern "C" fn vazhettu_open(
    g: Geometry,
    chips: &mut [u8],
    records: &mut [u8],
    slots: &[u8],
    lost: u64,
    allowance: u64,
) -> Report
    ensures { ◌≡◌ {A = Reported}
        (record { report = result; images = images chips.new records.new slots.now })
        (reported_of (open_call (layout_of g) (images chips.old records.old slots.now) lost allowance)) }
{
    Report::from(calls::open(g, chips, records, slots, lost, allowance))
}

// See calls::read.
#[unsafe(no_mangle)]
pub extern "C" fn vazhettu_read(
    g: Geometry,
    chips: &[u8],
    records: &[u8],
    slots: &[u8],
    lost: u64,
    page: u64,
    buffer: &mut [u8],
) -> ReadReport
    ensures { ◌≡◌ {A = ReadReported}
        (record { report = result; buffer = buffer.new })
        (read_reported_of (read_call (layout_of g) (images chips.now records.now slots.now) lost page buffer.old)) }
{
    ReadReport::from(calls::read(g, chips, records, slots, lost, page, buffer))
}

// See calls::write.
#[unsafe(no_mangle)]
pub extern "C" fn vazhettu_write(
    g: Geometry,
    chips: &mut [u8],
    records: &mut [u8],
    slots: &mut [u8],
    lost: u64,
    page: u64,
    bytes: &[u8],
    allowance: u64,
) -> Report
    ensures { ◌≡◌ {A = Reported}
        (record { report = result; images = images chips.new records.new slots.new })
        (reported_of (write_call (layout_of g) (images chips.old records.old slots.old) lost page bytes.now allowance)) }
{
    Report::from(calls::write(g, chips, records, slots, lost, page, bytes, allowance))
}

// See calls::commit.
#[unsafe(no_mangle)]
pub extern "C" fn vazhettu_commit(
    g: Geometry,
    chips: &mut [u8],
    records: &mut [u8],
    slots: &[u8],
    lost: u64,
    stripe: u64,
    allowance: u64,
) -> Report
    ensures { ◌≡◌ {A = Reported}
        (record { report = result; images = images chips.new records.new slots.now })
        (reported_of (commit_call (layout_of g) (images chips.old records.old slots.now) lost stripe allowance)) }
{
    Report::from(calls::commit(g, chips, records, slots, lost, stripe, allowance))
}

// See calls::collect.
#[unsafe(no_mangle)]
pub extern "C" fn vazhettu_collect(
    g: Geometry,
    chips: &mut [u8],
    records: &mut [u8],
    slots: &[u8],
    lost: u64,
    chip: u64,
    allowance: u64,
) -> Report
    ensures { ◌≡◌ {A = Reported}
        (record { report = result; images = images chips.new records.new slots.now })
        (reported_of (collect_call (layout_of g) (images chips.old records.old slots.now) lost chip allowance)) }
{
    Report::from(calls::collect(g, chips, records, slots, lost, chip, allowance))
}

// See tickets::add.
#[unsafe(no_mangle)]
pub extern "C" fn vazhettu_add(
    g: Geometry,
    chips: &mut [u8],
    records: &mut [u8],
    slots: &mut [u8],
    lost: u64,
    ticket: &[u8],
    allowance: u64,
) -> Report
    ensures { ◌≡◌ {A = Reported}
        (record { report = result; images = images chips.new records.new slots.new })
        (reported_of (add_call (layout_of g) (images chips.old records.old slots.old) lost ticket.now allowance)) }
{
    Report::from(tickets::add(g, chips, records, slots, lost, ticket, allowance))
}

// See tickets::find.
#[unsafe(no_mangle)]
pub extern "C" fn vazhettu_find(
    g: Geometry,
    chips: &[u8],
    records: &[u8],
    slots: &[u8],
    lost: u64,
    lot: u32,
    bag: u16,
) -> FindReport
    ensures { result ≡ find_reported (find_call (layout_of g) (images chips.now records.now slots.now) lost lot bag) }
{
    FindReport::from(tickets::find(g, chips, records, slots, lost, lot, bag))
}
