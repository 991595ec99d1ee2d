//! The first half of a collection: phase 1, the copies, phase 2.

#![tactic(auto)]

ghost use Rattle.std.specs.Prelude.{◌≡◌, true, List, [], ◌∷◌, ℕ, ◌≤◌, ◌<◌, length, Some};
ghost use Rattle.layout.specs.Layout.{layout_of, pages};
ghost use Rattle.layout.specs.Page.{page_at};
ghost use Rattle.layout.specs.Record.{record_at};
ghost use Rattle.rules.specs.Blocks.{lowest_clean_block};
ghost use Rattle.rules.specs.Fetch.{fed};
ghost use Rattle.rules.specs.Collect.{phase, copy_of, collectable, copy_steps, copy_feed};
ghost use Rattle.steps.specs.Store.{program as programStore, collection};
ghost use Rattle.steps.specs.Steps.{plain};
ghost use Rattle.steps.specs.Allowance.{Sane, Ran, images};
ghost use Rattle.codec.specs.Fit.{ChipsFit, RecordsFit, SlotsFit};
ghost use Rattle.names.specs.Checked.{Settled};
ghost use Rattle.copying.specs.Copyable.{Copyable};

use codec::{CollectionRecord, Spare, spare_at};
use device::{program, store_collection};
use fetch::{View, role_of};
use layout::{Geometry, NO_CHIP};
use names::named_at;
use steps::Progress;

// Programs page q of chip c with a copy of its page p, which a record names. It goes through the work page.
fn copy_page(
    chips: &mut [u8],
    records: &[u8],
    slots: &[u8],
    work: &mut [u8],
    g: Geometry,
    c: usize,
    p: usize,
    q: usize,
    run: Progress,
) -> Progress
    requires { ChipsFit g chips.old × RecordsFit g records.now × SlotsFit g slots.now × (c ≤ g.n) × (p < pages (layout_of g)) × (q < pages (layout_of g))
        × Sane run × Copyable (layout_of g) chips.old records.now c p × (length work.old ≡ g.w) }
    ensures { (rs zs : List ℕ) → Ran (layout_of g) run
        (fed (copy_feed (layout_of g) c (images chips.old records.now slots.now) p)
        (λ xs. programStore c q (copy_of (layout_of g) p (page_at (layout_of g) chips.old c p) xs)) ∷ [])
        result (images chips.old rs zs) (images chips.new rs zs) }
{
    let t = spare_at(chips, g, c, p);
    let j = t.stripe;
    let role = role_of(records, g, j, c, p);
    let view = View {
        g,
        chips,
        records,
        slots,
    };
    let got = view.fetch(work, NO_CHIP, j, role, true);
    let spare = Spare {
        kind: t.kind,
        member: t.member,
        stripe: j,
        copied: p,
    };
    program(chips, g, c, q, work, spare, got.reads, run)
}

// Stores phase n of the collection of block v of chip c into block d.
fn store_phase(
    records: &mut [u8],
    g: Geometry,
    n: usize,
    c: usize,
    v: usize,
    d: usize,
    run: Progress,
) -> Progress
    requires { RecordsFit g records.old × (n < 256) × (c < 256) × Sane run }
    ensures { (cs zs : List ℕ) → Ran (layout_of g) run (plain (collection (phase n c v d)) ∷ [])
        result (images cs records.old zs) (images cs records.new zs) }
{
    let co = CollectionRecord {
        phase: n,
        chip: c,
        victim: v,
        destination: d,
    };
    store_collection(records, g, co, run)
}

// Copies the named pages of block v of chip c, which can be collected, to block d, the lowest clean one.
pub fn copy_block(
    chips: &mut [u8],
    records: &mut [u8],
    slots: &[u8],
    work: &mut [u8],
    g: Geometry,
    c: usize,
    v: usize,
    d: usize,
    p: Progress,
) -> Progress
    requires { Settled g chips.old records.old × (c ≤ g.n) × Sane p
        × (v < g.b) × (collectable (layout_of g) c (page_at (layout_of g) chips.old c) (record_at (layout_of g) records.old) v ≡ true)
        × (lowest_clean_block (layout_of g) (page_at (layout_of g) chips.old c) ≡ Some d)
        × SlotsFit g slots.now × (length work.old ≡ g.w) }
    ensures { Ran (layout_of g) p
        (copy_steps (layout_of g) c (page_at (layout_of g) chips.old c)
        (copy_feed (layout_of g) c (images chips.old records.old slots.now))
        (record_at (layout_of g) records.old) v d)
        result (images chips.old records.old slots.now) (images chips.new records.new slots.now) }
{
    let k = g.k as usize;
    let mut run = store_phase(records, g, 1, c, v, d, p);
    let mut copies: usize = 0;
    for i in 0..k {
        // past a cut no store is made, and the images are not those that the next part is worked out from
        if run.cut {
            return run;
        }
        let page = v * k + i;
        if named_at(chips, records, g, c, page) {
            run = copy_page(chips, records, slots, work, g, c, page, d * k + copies, run);
            copies += 1;
        }
    }
    store_phase(records, g, 2, c, v, d, run)
}
