//! A commit as a whole: room on the parity chip, the place, and what is stored there.

#![tactic(auto)]

ghost use Rattle.std.specs.Prelude.{◌≡◌, true, ◌<◌, length};
ghost use Rattle.layout.specs.Layout.{layout_of};
ghost use Rattle.layout.specs.Rotation.{parity_chip};
ghost use Rattle.layout.specs.Record.{record_at, has_slot};
ghost use Rattle.rules.specs.Commit.{commit_steps};
ghost use Rattle.steps.specs.Allowance.{Sane, Ran, images};
ghost use Rattle.codec.specs.Fit.{SlotsFit};
ghost use Rattle.names.specs.Checked.{Settled};
ghost use Rattle.space.specs.Victims.{VictimFor};

use codec::parity_chip;
use collect::make_room;
use layout::Geometry;
use parity::commit_at;
use space::place_on;
use steps::Progress;

// Commits stripe j; v is the victim of its parity chip.
pub fn commit_stripe(
    chips: &mut [u8],
    records: &mut [u8],
    slots: &[u8],
    work: &mut [u8],
    g: Geometry,
    j: usize,
    v: Option<usize>,
    p: Progress,
) -> Progress
    requires { Settled g chips.old records.old × SlotsFit g slots.now × (length work.old ≡ g.w) × (j < g.s) × Sane p
        × (has_slot (record_at (layout_of g) records.old j) ≡ true) × VictimFor g chips.old records.old (parity_chip (layout_of g) j) v }
    ensures { Ran (layout_of g) p (commit_steps (layout_of g) j (images chips.old records.old slots.now))
        result (images chips.old records.old slots.now) (images chips.new records.new slots.now) }
{
    let c = parity_chip(g, j);
    let run = make_room(chips, records, slots, work, g, c, v, p);
    // past a cut there may be no place yet
    if run.cut {
        return run;
    }
    match place_on(chips, g, c) {
        Some(q) => commit_at(chips, records, slots, work, g, j, q, run),
        None => run,
    }
}
