//! One page of a stripe, fetched in its role: XORed into a buffer or copied, from the other chips where its own is lost.

#![tactic(auto)]

ghost use Rattle.std.specs.Prelude.{◌≡◌, ◌≢◌, true, cond, List, ℕ, ◌≤◌, ◌<◌, length};
ghost use Rattle.octets.specs.Xor.{◌⊕◌};
ghost use Rattle.layout.specs.Layout.{layout_of, limits, none, pages};
ghost use Rattle.layout.specs.Rotation.{parity_chip, member_chip};
ghost use Rattle.layout.specs.Page.{page_at};
ghost use Rattle.layout.specs.Record.{bit, record_at};
ghost use Rattle.layout.specs.Images.{slot_at};
ghost use Rattle.steps.specs.Allowance.{images};
ghost use Rattle.rules.specs.Names.{role_of};
ghost use Rattle.rules.specs.Sound.{record_sound};
ghost use Rattle.rules.specs.Fetch.{itself, gathered, chip_in, number_in, through_partial, rebuilt, fetch_in};
ghost use Rattle.rules.specs.Read.{fetch_member};
ghost use Rattle.codec.specs.Fit.{ChipsFit, RecordsFit, SlotsFit};
ghost use Rattle.fetch.specs.Into.{RoleFits, begun, others, first_in, left_out, is_inside, through_full, Into, is_direct};

use codec::scan::{LAST, OLD, number_in};
use codec::{
    NONE, bit_of, bitmap_at, chip_beside, member_chip, member_on, page_data, parity_chip, slot_at,
    slot_data,
};
use layout::Geometry;
use octets::{copy, fill, xor_into};
use rules::{Origin, Role};

// No member. No Option: it is only compared with each member (`left_out`).
const NO_MEMBER: usize = 6;

// The images of a store, lent together with the geometry that they fit.
#[derive(Clone, Copy)]
pub struct View<'a> {
    pub g: Geometry,
    pub chips: &'a [u8],
    pub records: &'a [u8],
    pub slots: &'a [u8],
    pub ghost chips_fit: { ChipsFit g chips.now },
    pub ghost records_fit: { RecordsFit g records.now },
    pub ghost slots_fit: { SlotsFit g slots.now },
}

// A stripe of these images, whose record is sound.
#[derive(Clone, Copy)]
struct Stripe<'a> {
    view: View<'a>,
    j: usize,
    // the chip of its parity
    parity: usize,
    ghost within: { j < view.g.s },
    ghost beside: { (parity ≡ parity_chip (layout_of view.g) j) × (parity ≤ view.g.n) },
    ghost sound: { record_sound (layout_of view.g) (record_at (layout_of view.g) view.records.now j) ≡ true },
}

// What a fetch tells, besides the bytes.
#[derive(Clone, Copy)]
pub struct Got {
    // pages read for it
    pub reads: u64,
    pub origin: Origin,
}

// XORs src into work; where work is fresh, into zeros, so that it becomes src.
fn add(work: &mut [u8], src: &[u8], fresh: bool)
    requires { length src.now ≡ length work.old }
    ensures { work.new ≡ begun fresh work.old ⊕ src.now }
{
    if fresh {
        copy(work, src);
    } else {
        xor_into(work, src);
    }
}

// XORs in no page: work that is fresh becomes zeros.
fn add_none(work: &mut [u8], fresh: bool)
    ensures { work.new ≡ begun fresh work.old }
{
    if fresh {
        fill(work, 0);
    }
}

// The member that is left out of the others.
fn left_out(role: Role) -> usize
    ensures { result ≡ left_out role }
{
    match role {
        Role::Current(m) | Role::Old(m) => m,
        Role::Parity => NO_MEMBER,
    }
}

// The chip of a page in this role, of a stripe whose parity is on chip `parity`.
fn chip_of(g: Geometry, parity: usize, role: Role) -> usize
    requires { (limits (layout_of g) ≡ true) × (parity ≤ g.n) × RoleFits g role }
    ensures { ((j : ℕ) → parity ≡ parity_chip (layout_of g) j → result ≡ chip_in (layout_of g) j role) × (result ≤ g.n) }
{
    match role {
        // an arm each, so that an edit of one is refused where its role's chip is wanted
        Role::Current(m) => chip_beside(parity, m),
        Role::Old(m) => chip_beside(parity, m),
        Role::Parity => parity,
    }
}

impl Stripe<'_> {
    // The page of member i that goes into a rebuilt one: of the others than m those inside the bitmap, or those that the parity was stored over.
    fn other_number(&self, bitmap: usize, inside: bool, m: usize, i: usize) -> usize
        requires { (i < 6) × (bitmap ≡ (record_at (layout_of self.now.view.g) self.now.view.records.now self.now.j).bitmap) }
        ensures { result ≡ others (layout_of self.now.view.g) inside m (record_at (layout_of self.now.view.g) self.now.view.records.now self.now.j) i }
    {
        let set = bit_of(bitmap, i);
        if (i == m) | (inside & !set) {
            return NONE;
        }
        if set & !inside {
            return number_in(self.view.records, self.view.g, self.j, OLD + i);
        }
        number_in(self.view.records, self.view.g, self.j, i)
    }

    // XORs into work each of these pages, and answers how many were read. The numbers are read where they lie.
    fn gather(&self, work: &mut [u8], inside: bool, m: usize) -> u64
        requires { length work.old ≡ self.now.view.g.w }
        ensures { (work.new ≡ work.old
            ⊕ (gathered (layout_of self.now.view.g) (page_at (layout_of self.now.view.g) self.now.view.chips.now) self.now.j
            (others (layout_of self.now.view.g) inside m (record_at (layout_of self.now.view.g) self.now.view.records.now self.now.j))).bytes)
            × (result ≡ (gathered (layout_of self.now.view.g) (page_at (layout_of self.now.view.g) self.now.view.chips.now) self.now.j
            (others (layout_of self.now.view.g) inside m (record_at (layout_of self.now.view.g) self.now.view.records.now self.now.j))).reads)
            × (result ≤ 6) }
    {
        let n = self.view.g.n as usize;
        let bitmap = bitmap_at(self.view.records, self.view.g, self.j);
        let mut reads = 0;
        for i in 0..n {
            let p = self.other_number(bitmap, inside, m, i);
            let c = chip_beside(self.parity, i);
            let read = self.view.add_page(work, c, p, false);
            reads += read;
        }
        reads
    }

    // XORs into work member m as the partial parity has it.
    fn through_partial(&self, work: &mut [u8], m: usize, fresh: bool) -> Got
        requires { (length work.old ≡ self.now.view.g.w) × (bit (record_at (layout_of self.now.view.g) self.now.view.records.now self.now.j) m ≡ true) }
        ensures { Into (through_partial (layout_of self.now.view.g) (page_at (layout_of self.now.view.g) self.now.view.chips.now)
            (slot_at (layout_of self.now.view.g) self.now.view.slots.now) self.now.j
            (record_at (layout_of self.now.view.g) self.now.view.records.now self.now.j) m)
            (begun fresh work.old) work.new result }
    {
        let i = slot_at(self.view.records, self.view.g, self.j);
        add(work, slot_data(self.view.slots, self.view.g, i), fresh);
        Got {
            reads: self.gather(work, true, m),
            origin: Origin::Partial,
        }
    }

    // The page that goes in first: the parity page, but where it is the one that is rebuilt.
    fn first_number(&self, role: Role) -> usize
        ensures { result ≡ first_in (layout_of self.now.view.g) (record_at (layout_of self.now.view.g) self.now.view.records.now self.now.j) role }
    {
        match role {
            Role::Current(_) | Role::Old(_) => {
                number_in(self.view.records, self.view.g, self.j, LAST)
            }
            Role::Parity => NONE,
        }
    }

    // XORs into work the page in this role as the parity has it: the parity page and the others that it was stored over.
    fn through_parity(&self, work: &mut [u8], role: Role, fresh: bool) -> Got
        requires { length work.old ≡ self.now.view.g.w }
        ensures { (z : ℕ → List ℕ) → Into (through_full (layout_of self.now.view.g) (page_at (layout_of self.now.view.g) self.now.view.chips.now) z self.now.j
            (record_at (layout_of self.now.view.g) self.now.view.records.now self.now.j) role)
            (begun fresh work.old) work.new result }
    {
        let p = self.first_number(role);
        let first = self.view.add_page(work, self.parity, p, fresh);
        let m = left_out(role);
        Got {
            reads: first + self.gather(work, false, m),
            origin: Origin::Full,
        }
    }

    // Whether it is a current page in the partial parity.
    fn is_inside(&self, role: Role) -> bool
        requires { RoleFits self.now.view.g role }
        ensures { result ≡ is_inside (record_at (layout_of self.now.view.g) self.now.view.records.now self.now.j) role }
    {
        match role {
            Role::Current(m) => bit_of(bitmap_at(self.view.records, self.view.g, self.j), m),
            Role::Old(_) | Role::Parity => false,
        }
    }

    // The page in this role, rebuilt from the other chips.
    fn rebuild(&self, work: &mut [u8], role: Role, fresh: bool) -> Got
        requires { (length work.old ≡ self.now.view.g.w) × RoleFits self.now.view.g role }
        ensures { Into (rebuilt (layout_of self.now.view.g) (page_at (layout_of self.now.view.g) self.now.view.chips.now)
            (slot_at (layout_of self.now.view.g) self.now.view.slots.now) self.now.j
            (record_at (layout_of self.now.view.g) self.now.view.records.now self.now.j) role)
            (begun fresh work.old) work.new result }
    {
        if self.is_inside(role) {
            return self.through_partial(work, left_out(role), fresh);
        }
        self.through_parity(work, role, fresh)
    }
}

// The role of page p of chip c, which the record of stripe j names.
pub fn role_of(records: &[u8], g: Geometry, j: usize, c: usize, p: usize) -> Role
    requires { RecordsFit g records.now × (j < g.s) × (c ≤ g.n) }
    ensures { (result ≡ role_of (layout_of g) c j (record_at (layout_of g) records.now j) p) × RoleFits g result }
{
    let parity = parity_chip(g, j);
    if c == parity {
        return Role::Parity;
    }
    let m = member_on(g, parity, c);
    if number_in(records, g, j, m) == p {
        return Role::Current(m);
    }
    Role::Old(m)
}

// Whether member m of stripe j can be read off its chip: it is written, and its chip is not lost.
pub fn is_direct(
    records: &[u8],
    g: Geometry,
    lost: usize,
    j: usize,
    parity: usize,
    m: usize,
) -> bool
    requires { RecordsFit g records.now × (j < g.s) × (m < g.n) × (parity ≡ parity_chip (layout_of g) j) }
    ensures { result ≡ is_direct (layout_of g) (record_at (layout_of g) records.now j) lost j m }
{
    (number_in(records, g, j, m) != NONE) & (chip_beside(parity, m) != lost)
}

// Where it can, as it lies there; else the work page, to which it was fetched.
pub fn lent<'a>(
    chips: &'a [u8],
    work: &'a [u8],
    records: &[u8],
    g: Geometry,
    j: usize,
    parity: usize,
    m: usize,
    direct: bool,
) -> &'a [u8]
    requires { ChipsFit g chips.now × RecordsFit g records.now × (length work.now ≡ g.w) × (j < g.s) × (m < g.n) × (parity ≡ parity_chip (layout_of g) j)
        × (direct ≡ true → (record_at (layout_of g) records.now j).current m < pages (layout_of g)) }
    ensures { (result.now ≡ cond direct (page_at (layout_of g) chips.now (member_chip (layout_of g) j m) ((record_at (layout_of g) records.now j).current m)).bytes work.now)
        × (length result.now ≡ g.w) }
{
    if direct {
        let number = number_in(records, g, j, m);
        return page_data(chips, g, chip_beside(parity, m), number);
    }
    work
}

impl View<'_> {
    // XORs into work page p of chip c as it stands, and answers how many pages were read: of no page, none.
    fn add_page(&self, work: &mut [u8], c: usize, p: usize, fresh: bool) -> u64
        requires { (length work.old ≡ self.now.g.w) × (c ≤ self.now.g.n) × (p ≢ none (layout_of self.now.g) → p < pages (layout_of self.now.g)) }
        ensures { (work.new ≡ begun fresh work.old ⊕ (itself (layout_of self.now.g) (page_at (layout_of self.now.g) self.now.chips.now) c p).bytes)
            × (result ≡ (itself (layout_of self.now.g) (page_at (layout_of self.now.g) self.now.chips.now) c p).reads) × (result ≤ 1) }
    {
        if p != NONE {
            add(work, page_data(self.chips, self.g, c, p), fresh);
            return 1;
        }
        add_none(work, fresh);
        0
    }

    // The number in the record of the page in this role.
    fn number_named(&self, j: usize, role: Role) -> usize
        requires { (j < self.now.g.s) × RoleFits self.now.g role }
        ensures { result ≡ number_in (layout_of self.now.g) (record_at (layout_of self.now.g) self.now.records.now j) role }
    {
        let i = match role {
            Role::Current(m) => m,
            Role::Old(m) => OLD + m,
            Role::Parity => LAST,
        };
        number_in(self.records, self.g, j, i)
    }

    // XORs into work the page of stripe j in this role, or what it is rebuilt from where its chip is lost; of no page, nothing. Work that is
    // fresh becomes the page.
    pub fn fetch(&self, work: &mut [u8], lost: usize, j: usize, role: Role, fresh: bool) -> Got
        requires { (length work.old ≡ self.now.g.w) × (j < self.now.g.s) × RoleFits self.now.g role
            × (record_sound (layout_of self.now.g) (record_at (layout_of self.now.g) self.now.records.now j) ≡ true) }
        ensures { Into (fetch_in (layout_of self.now.g) (images self.now.chips.now self.now.records.now self.now.slots.now) lost j role)
            (begun fresh work.old) work.new result }
    {
        let p = self.number_named(j, role);
        if p == NONE {
            add_none(work, fresh);
            return Got {
                reads: 0,
                origin: Origin::Unwritten,
            };
        }
        let parity = parity_chip(self.g, j);
        let c = chip_of(self.g, parity, role);
        if c == lost {
            let stripe = Stripe {
                view: *self,
                j,
                parity,
            };
            return stripe.rebuild(work, role, fresh);
        }
        Got {
            reads: self.add_page(work, c, p, fresh),
            origin: Origin::Direct,
        }
    }

    // The buffer becomes member m of stripe j.
    pub fn fetch_member(&self, buffer: &mut [u8], lost: usize, j: usize, m: usize) -> Got
        requires { (length buffer.old ≡ self.now.g.w) × (j < self.now.g.s) × (m < self.now.g.n)
            × (record_sound (layout_of self.now.g) (record_at (layout_of self.now.g) self.now.records.now j) ≡ true) }
        ensures { (record { bytes = buffer.new; reads = result.reads; origin = result.origin }
            ≡ fetch_member (layout_of self.now.g) (images self.now.chips.now self.now.records.now self.now.slots.now) lost j m)
            × (result.reads ≤ 7) }
    {
        self.fetch(buffer, lost, j, Role::Current(m), true)
    }

    // The buffer becomes member m of stripe j, for a read: on the lost chip it is gathered in a work page.
    pub fn read_member(&self, buffer: &mut [u8], lost: usize, j: usize, m: usize) -> Got
        requires { (length buffer.old ≡ self.now.g.w) × (j < self.now.g.s) × (m < self.now.g.n)
            × (record_sound (layout_of self.now.g) (record_at (layout_of self.now.g) self.now.records.now j) ≡ true) }
        ensures { record { bytes = buffer.new; reads = result.reads; origin = result.origin }
            ≡ fetch_member (layout_of self.now.g) (images self.now.chips.now self.now.records.now self.now.slots.now) lost j m }
    {
        if member_chip(self.g, j, m) != lost {
            return self.fetch_member(buffer, lost, j, m);
        }
        let mut work = [0u8; 4096];
        let page = &mut work[0..self.g.w as usize];
        let got = self.fetch_member(page, lost, j, m);
        copy(buffer, page);
        got
    }
}
