//! The list of a format: every block erased, every record empty, phase 0.

#![tactic(auto)]

ghost use Rattle.std.specs.Prelude.{List, ℕ, ◌+◌};
ghost use Rattle.layout.specs.Layout.{layout_of};
ghost use Rattle.steps.specs.Steps.{steps_below};
ghost use Rattle.rules.specs.Format.{erase_chip, empty_stripe, format_steps};
ghost use Rattle.codec.specs.Fit.{ChipsFit, RecordsFit};
ghost use Rattle.steps.specs.Allowance.{Sane, Ran, images};

use codec::CollectionRecord;
use codec::put::{put_clean_blocks, put_empty_records};
use device::{count_all, held, store_collection};
use layout::Geometry;
use steps::Progress;

// Erases the blocks of every chip. The blocks follow each other in the image as in the list, so the first of them are one part of it.
fn erase_chips(chips: &mut [u8], g: Geometry, p: Progress) -> Progress
    requires { ChipsFit g chips.old × Sane p }
    ensures { (rs zs : List ℕ) → Ran (layout_of g) p (steps_below (g.n + 1) (erase_chip (layout_of g)))
        result (images chips.old rs zs) (images chips.new rs zs) }
{
    let blocks = (g.n + 1) * g.b;
    let n = held(p, blocks as usize);
    put_clean_blocks(chips, g, n);
    count_all(p, blocks, 1)
}

// Stores the empty record for every stripe.
fn empty_records(records: &mut [u8], g: Geometry, p: Progress) -> Progress
    requires { RecordsFit g records.old × Sane p }
    ensures { (cs zs : List ℕ) → Ran (layout_of g) p (steps_below g.s (empty_stripe (layout_of g)))
        result (images cs records.old zs) (images cs records.new zs) }
{
    let n = held(p, g.s as usize);
    put_empty_records(records, g, n);
    count_all(p, g.s, 0)
}

// The whole list.
pub fn format_all(chips: &mut [u8], records: &mut [u8], g: Geometry, p: Progress) -> Progress
    requires { ChipsFit g chips.old × RecordsFit g records.old × Sane p }
    ensures { (zs : List ℕ) → Ran (layout_of g) p (format_steps (layout_of g))
        result (images chips.old records.old zs) (images chips.new records.new zs) }
{
    let erased = erase_chips(chips, g, p);
    let emptied = empty_records(records, g, erased);
    let idle = CollectionRecord::default();
    store_collection(records, g, idle, emptied)
}
