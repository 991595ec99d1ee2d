//! The collection under way: what its phase asks of its two blocks.

ghost use Rattle.std.specs.Prelude.{◌≡◌, ◌<◌};
ghost use Rattle.layout.specs.Layout.{layout_of, pages};
ghost use Rattle.layout.specs.Page.{page_at};
ghost use Rattle.layout.specs.Record.{record_at};
ghost use Rattle.layout.specs.Collection.{collection_at};
ghost use Rattle.rules.specs.Sound.{phase1_sound, phase2_sound};
ghost use Rattle.codec.specs.Views.{CollectionIs};
ghost use Rattle.names.specs.Checked.{RecordsPass};
ghost use Rattle.names.specs.Stamps.{StampsPass};
ghost use Rattle.spares.specs.Phases.{twin_place, Twins, phase_sound};

use codec::{CollectionRecord, spare_at};
use layout::Geometry;
use names::named_at;

// Phase 1: no record names a page of the destination d.
fn phase1_passes(chips: &[u8], records: &[u8], g: Geometry, c: usize, d: usize) -> bool
    requires { StampsPass g chips.now records.now c × (d < g.b) }
    ensures { result ≡ phase1_sound (layout_of g) (record_at (layout_of g) records.now) c d }
{
    let k = g.k as usize;
    let first = d * k;
    let mut free = true;
    for i in 0..k {
        free = free & !named_at(chips, records, g, c, first + i);
    }
    free
}

// The place of the victim v whose unnamed twin page q is, if any.
pub fn twin_place(
    chips: &[u8],
    records: &[u8],
    g: Geometry,
    c: usize,
    v: usize,
    q: usize,
) -> Option<usize>
    requires { StampsPass g chips.now records.now c × (v < g.b) × (q < pages (layout_of g)) }
    ensures { result ≡ twin_place (layout_of g) (record_at (layout_of g) records.now) (page_at (layout_of g) chips.now c) c v q }
{
    let k = g.k as usize;
    let first = v * k;
    let u = spare_at(chips, g, c, q);
    let p = u.copied;
    if (p < first) | (first + k <= p) {
        return None;
    }
    let t = spare_at(chips, g, c, p);
    let same = (u.kind == t.kind)
        & (u.member == t.member)
        & (u.stripe == t.stripe)
        & !named_at(chips, records, g, c, q);
    if same { Some(p - first) } else { None }
}

// For each place of the victim v, how many pages of the destination d are its unnamed twin. A page is the twin of one place at most,
// so one look at each is enough.
fn count_twins(chips: &[u8], records: &[u8], g: Geometry, c: usize, v: usize, d: usize) -> [u8; 128]
    requires { StampsPass g chips.now records.now c × (v < g.b) × (d < g.b) }
    ensures { Twins (layout_of g) (record_at (layout_of g) records.now) (page_at (layout_of g) chips.now c) c v d g.k result }
{
    let k = g.k as usize;
    let first = d * k;
    let mut counts = [0u8; 128];
    for i in 0..k {
        let found = twin_place(chips, records, g, c, v, first + i);
        if let Some(m) = found {
            counts[m] += 1;
        }
    }
    counts
}

// Phase 2: each page named in the victim v has one twin in the destination d.
fn phase2_passes(chips: &[u8], records: &[u8], g: Geometry, c: usize, v: usize, d: usize) -> bool
    requires { StampsPass g chips.now records.now c × (v < g.b) × (d < g.b) }
    ensures { result ≡ phase2_sound (layout_of g) (record_at (layout_of g) records.now) (page_at (layout_of g) chips.now c) c v d }
{
    let k = g.k as usize;
    let first = v * k;
    let counts = count_twins(chips, records, g, c, v, d);
    let mut copied = true;
    for i in 0..k {
        copied = copied & (!named_at(chips, records, g, c, first + i) | (counts[i] == 1));
    }
    copied
}

// Whether the collection under way, if any, is sound on its chip.
pub fn phase_passes(chips: &[u8], records: &[u8], g: Geometry, co: CollectionRecord) -> bool
    requires { StampsPass g chips.now records.now co.chip × RecordsPass g records.now × CollectionIs co (collection_at (layout_of g) records.now) }
    ensures { result ≡ phase_sound (layout_of g) (record_at (layout_of g) records.now) (page_at (layout_of g) chips.now co.chip) (collection_at (layout_of g) records.now) }
{
    if co.phase == 1 {
        return phase1_passes(chips, records, g, co.chip, co.destination);
    }
    if co.phase == 2 {
        return phase2_passes(chips, records, g, co.chip, co.victim, co.destination);
    }
    true
}
