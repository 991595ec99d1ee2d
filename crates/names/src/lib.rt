//! Which pages the records name.

#![tactic(auto)]

ghost use Rattle.std.specs.Prelude.{◌≡◌, ℕ, ◌≤◌, ◌<◌};
ghost use Rattle.layout.specs.Layout.{layout_of, pages};
ghost use Rattle.layout.specs.Page.{Page};
ghost use Rattle.layout.specs.Record.{record_at};
ghost use Rattle.rules.specs.Names.{named};
ghost use Rattle.codec.specs.Fit.{RecordsFit};
ghost use Rattle.codec.specs.Views.{spare_of};
ghost use Rattle.names.specs.Stamps.{pages_on, by_stamp, names_on, StampsPass};

use codec::scan::{LAST, OLD, number_in};
use codec::{DATA, NONE, PARITY, Spare, member_on, parity_chip, spare_at};
use layout::Geometry;
use ranges::ones;

// The pages of a stripe on one chip: their numbers, the side number being an old page's or none, and their stamp, as a spare has it.
#[derive(Clone, Copy)]
struct StripePages {
    main: usize,
    side: usize,
    kind: usize,
    member: usize,
}

// What the record of stripe j says of chip c.
fn stripe_pages(records: &[u8], g: Geometry, c: usize, j: usize) -> StripePages
    requires { RecordsFit g records.now × (c ≤ g.n) × (j < g.s) }
    ensures { result ≡ pages_on (layout_of g) c j (record_at (layout_of g) records.now j) }
{
    let parity = parity_chip(g, j);
    if c == parity {
        return StripePages {
            main: number_in(records, g, j, LAST),
            side: NONE,
            kind: PARITY,
            member: 0,
        };
    }
    let m = member_on(g, parity, c);
    StripePages {
        main: number_in(records, g, j, m),
        side: number_in(records, g, j, OLD + m),
        kind: DATA,
        member: m,
    }
}

// Whether page p of chip c, with these spare bytes, is named by the record of its stripe.
fn named_by_stamp(records: &[u8], g: Geometry, c: usize, p: usize, t: Spare) -> bool
    requires { RecordsFit g records.now × (c ≤ g.n) }
    ensures { (x : ℕ → Page) → spare_of (x p) ≡ t → result ≡ by_stamp (layout_of g) (record_at (layout_of g) records.now) x c p }
{
    let s = g.s as usize;
    let j = t.stripe;
    if s <= j {
        return false;
    }
    let e = stripe_pages(records, g, c, j);
    (t.kind == e.kind) & (t.member == e.member) & ((e.main == p) | (e.side == p))
}

// Whether a record names page p of chip c. It is lent what it reads: a view would ask its callers for the slots too.
pub fn named_at(chips: &[u8], records: &[u8], g: Geometry, c: usize, p: usize) -> bool
    requires { StampsPass g chips.now records.now c × (p < pages (layout_of g)) }
    ensures { result ≡ named (layout_of g) (record_at (layout_of g) records.now) c p }
{
    named_by_stamp(records, g, c, p, spare_at(chips, g, c, p))
}

// How many page numbers the record of stripe j has on chip c.
pub fn names_on(records: &[u8], g: Geometry, c: usize, j: usize) -> usize
    requires { RecordsFit g records.now × (c ≤ g.n) × (j < g.s) }
    ensures { (result ≡ names_on (layout_of g) (record_at (layout_of g) records.now) j c) × (result ≤ 2) }
{
    let e = stripe_pages(records, g, c, j);
    ones(e.main != NONE) + ones(e.side != NONE)
}
