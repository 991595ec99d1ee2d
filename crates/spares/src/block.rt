//! One look at each page's spare of a block. The stamps of some pages one behind another are fetched into arrays, and blocks are looked at
//! there.

ghost use Rattle.std.specs.Prelude.{◌≡◌, true, List, ℕ, ◌+◌, ◌*◌, ◌≤◌, ◌<◌, replicate};
ghost use Rattle.ranges.specs.Look.{count_below};
ghost use Rattle.layout.specs.Layout.{layout_of, limits, pages};
ghost use Rattle.layout.specs.Page.{Page, page_at};
ghost use Rattle.layout.specs.Record.{record_at};
ghost use Rattle.rules.specs.Blocks.{ordered_block};
ghost use Rattle.codec.specs.Fit.{ChipsFit, RecordsFit};
ghost use Rattle.codec.specs.Scan.{StampsOf};
ghost use Rattle.spares.specs.Scans.{by_stamp_in, field_of, FieldFits, FieldsOf, FieldsFit, has_number, fill_of, block_scan};

use codec::scan::{LAST, NO_INDEX, OLD, fetch_stamps, is_clean_tag, number_in, tag_of};
use codec::{DATA, PARITY};
use layout::Geometry;

// What a pass over the spares of a block brings.
#[derive(Clone, Copy)]
pub struct Scan {
    // no used page follows a clean one
    pub ordered: bool,
    // every page is clean
    pub clean: bool,
    // every page is used
    pub full: bool,
    // pages that the records name, each found by its own stamp
    pub named: usize,
}

// Whether all pages of a block are clean, and whether none is.
#[derive(Clone, Copy)]
struct Fill {
    clean: bool,
    full: bool,
}

// The stamps of some pages of a chip, one behind another from page `first` on, and the field of each.
#[derive(Clone, Copy)]
pub struct Stamps {
    pub first: usize,
    pub tags: [u16; 128],
    pub stripes: [u16; 128],
    pub fields: [u16; 128],
}

// The field of a page is the index of its number in the record of its stripe. That of the page of chip c with this tag and stripe j; none
// where the tag is not that of the stripe's own page there. The width of a stripe is N + 1.
fn field_of(g: Geometry, width: u16, c: u16, tag: u16, j: u16) -> u16
    requires { (limits (layout_of g) ≡ true) × (width ≡ g.n + 1) × (c ≤ g.n) }
    ensures { result ≡ field_of (layout_of g) c tag j }
{
    let s = g.s as u16;
    let parity = width - 1 - j % width;
    let m = if c <= parity { c } else { c - 1 };
    let own = if c == parity {
        tag_of(PARITY as u16, 0)
    } else {
        tag_of(DATA as u16, m)
    };
    let field = if c == parity { LAST as u16 } else { m };
    if (tag == own) & (j < s) {
        field
    } else {
        NO_INDEX as u16
    }
}

// Whether the record of stripe j has page p in this field, or as the old page beside it; the parity has none beside it.
fn has_number(records: &[u8], g: Geometry, j: u16, field: u16, p: usize) -> bool
    requires { RecordsFit g records.now × FieldFits (layout_of g) j field }
    ensures { result ≡ has_number (record_at (layout_of g) records.now j) field p }
{
    let i = field as usize;
    if i == NO_INDEX {
        return false;
    }
    if number_in(records, g, j as usize, i) == p {
        return true;
    }
    if i == LAST {
        return false;
    }
    number_in(records, g, j as usize, OLD + i) == p
}

impl Stamps {
    // None yet.
    pub fn none() -> Stamps
        ensures { (result.first ≡ 0) × (result.tags ≡ replicate 128 0) × (result.stripes ≡ replicate 128 0) × (result.fields ≡ replicate 128 0) }
    {
        Stamps {
            first: 0,
            tags: [0; 128],
            stripes: [0; 128],
            fields: [0; 128],
        }
    }

    // Those of so many pages of chip c, from page `first` on. They are put in place, for a struct of this size would be copied where it is
    // given back.
    pub fn fetch(&mut self, chips: &[u8], g: Geometry, c: usize, first: usize, count: usize)
        requires { ChipsFit g chips.now × (c ≤ g.n) × (first < pages (layout_of g)) × (first + count ≤ pages (layout_of g)) × (count ≤ 128) }
        ensures { (self.new.first ≡ first) × StampsOf (page_at (layout_of g) chips.now c) self.new.first count self.new.tags self.new.stripes
            × FieldsOf (layout_of g) c count self.new.tags self.new.stripes self.new.fields }
    {
        self.first = first;
        // array by array, for codec stands below this struct
        fetch_stamps(chips, g, c, first, count, &mut self.tags, &mut self.stripes);
        self.fields_of(g, c, count);
    }

    // The fields of so many pages of chip c.
    fn find_by_width(&mut self, g: Geometry, width: u16, c: usize, count: usize)
        requires { (limits (layout_of g) ≡ true) × (width ≡ g.n + 1) × (c ≤ g.n) × (count ≤ 128) }
        ensures { FieldsOf (layout_of g) c count self.new.tags self.new.stripes self.new.fields
            × (self.new.first ≡ self.old.first) × (self.new.tags ≡ self.old.tags) × (self.new.stripes ≡ self.old.stripes) }
    {
        let chip = c as u16;
        for i in 0..count {
            self.fields[i] = field_of(g, width, chip, self.tags[i], self.stripes[i]);
        }
    }

    // The same for any N. Each call gives the width as a constant, for a remainder by a constant takes no division.
    pub fn fields_of(&mut self, g: Geometry, c: usize, count: usize)
        requires { (limits (layout_of g) ≡ true) × (c ≤ g.n) × (count ≤ 128) }
        ensures { FieldsOf (layout_of g) c count self.new.tags self.new.stripes self.new.fields
            × (self.new.first ≡ self.old.first) × (self.new.tags ≡ self.old.tags) × (self.new.stripes ≡ self.old.stripes) }
    {
        match g.n as usize {
            2 => self.find_by_width(g, 3, c, count),
            3 => self.find_by_width(g, 4, c, count),
            4 => self.find_by_width(g, 5, c, count),
            5 => self.find_by_width(g, 6, c, count),
            _ => self.find_by_width(g, 7, c, count),
        }
    }

    // How many pages of a block are named by the records of their stripes. They stand in the arrays from place o on.
    fn count_named(&self, records: &[u8], g: Geometry, o: usize) -> usize
        requires { RecordsFit g records.now × (self.now.first + (o + g.k) ≤ pages (layout_of g)) × (o + g.k ≤ 128)
            × FieldsFit (layout_of g) (o + g.k) self.now.stripes self.now.fields }
        ensures { (x : ℕ → Page) (c b : ℕ) (tags : List ℕ) → c ≤ g.n → self.now.first + o ≡ b * g.k
            → StampsOf x self.now.first (o + g.k) tags self.now.stripes
            → FieldsOf (layout_of g) c (o + g.k) tags self.now.stripes self.now.fields
            → result ≡ count_below g.k (by_stamp_in (layout_of g) (record_at (layout_of g) records.now) x c b) }
    {
        let end = o + g.k as usize;
        let mut named: usize = 0;
        for at in o..end {
            let p = self.first + at;
            if has_number(records, g, self.stripes[at], self.fields[at], p) {
                named += 1;
            }
        }
        named
    }

    // Whether the used pages of a block come first. Two tags are looked at for each page, so that no step waits for the one before it.
    fn is_ordered(&self, g: Geometry, o: usize) -> bool
        requires { (limits (layout_of g) ≡ true) × (o + g.k ≤ 128) }
        ensures { (x : ℕ → Page) (b first : ℕ) (stripes : List ℕ) → first + o ≡ b * g.k
            → StampsOf x first (o + g.k) self.now.tags stripes → result ≡ ordered_block (layout_of g) x b }
    {
        let last = g.k as usize - 1;
        let mut ordered = true;
        for i in 0..last {
            ordered &= !is_clean_tag(self.tags[o + i]) | is_clean_tag(self.tags[o + i + 1]);
        }
        ordered
    }

    // Whether all pages of a block are clean, and whether none is.
    fn fill_of(&self, g: Geometry, o: usize) -> Fill
        requires { (limits (layout_of g) ≡ true) × (o + g.k ≤ 128) }
        ensures { (x : ℕ → Page) (b first : ℕ) (stripes : List ℕ) → first + o ≡ b * g.k
            → StampsOf x first (o + g.k) self.now.tags stripes → result ≡ fill_of (layout_of g) x b }
    {
        let k = g.k as usize;
        let mut clean = true;
        let mut full = true;
        for i in 0..k {
            let free = is_clean_tag(self.tags[o + i]);
            clean &= free;
            full &= !free;
        }
        Fill { clean, full }
    }

    // One look at each page's spare of a block, whose pages stand in the arrays from place o on.
    pub fn scan_block(&self, records: &[u8], g: Geometry, o: usize) -> Scan
        requires { RecordsFit g records.now × (self.now.first + (o + g.k) ≤ pages (layout_of g)) × (o + g.k ≤ 128)
            × FieldsFit (layout_of g) (o + g.k) self.now.stripes self.now.fields }
        ensures { (x : ℕ → Page) (c b : ℕ) → c ≤ g.n → self.now.first + o ≡ b * g.k
            → StampsOf x self.now.first (o + g.k) self.now.tags self.now.stripes
            → FieldsOf (layout_of g) c (o + g.k) self.now.tags self.now.stripes self.now.fields
            → result ≡ block_scan (layout_of g) (record_at (layout_of g) records.now) x c b }
    {
        let fill = self.fill_of(g, o);
        // nearly all blocks are, and then no page is out of order
        let alike = fill.clean | fill.full;
        let ordered = if alike { true } else { self.is_ordered(g, o) };
        Scan {
            ordered,
            clean: fill.clean,
            full: fill.full,
            named: self.count_named(records, g, o),
        }
    }
}
