//! Many pages or records looked at in one go, as the checks do.

ghost use Rattle.std.specs.Prelude.{◌≡◌, true, List, ℕ, ◌+◌, ◌*◌, ◌≤◌, ◌<◌, length, get_or, IfSome};
ghost use Rattle.ranges.specs.Look.{all_below};
ghost use Rattle.layout.specs.Layout.{layout_of, limits, pages};
ghost use Rattle.layout.specs.Page.{page_at};
ghost use Rattle.layout.specs.Record.{record_at};
ghost use Rattle.codec.specs.Fit.{ChipsFit, RecordsFit};
ghost use Rattle.codec.specs.Scan.{TagIs, tag_of, clean_tag, StampsOf, last_number, number_of, Ranges, WordAt, Clear, written_in, Plain};

use crate::{
    MEMBER_AT, NONE, PARITY_AT, RECORD_BYTES, SPARE_BYTES, STRIPE_AT, WIDTH, is_clean_kind,
    page_offset,
};
use layout::Geometry;
use octets::{byte, number_at};

// The numbers of a record by their index: from 0 on the current pages, then the old ones, then the parity page. No index stands for no
// number.
pub const OLD: usize = 6;

pub const LAST: usize = 12;

// no Option: indices stand side by side in 16 bits each, of which many are made in one step
pub const NO_INDEX: usize = 255;

// Number i of the record of stripe j.
pub fn number_in(records: &[u8], g: Geometry, j: usize, i: usize) -> usize
    requires { RecordsFit g records.now × (j < g.s) × (i ≤ last_number) }
    ensures { (result ≡ number_of (record_at (layout_of g) records.now j) i) × (result < 65536) }
{
    number_at(records, j * RECORD_BYTES + WIDTH * i)
}

// The tag of a page: its kind, and behind it its member.
pub fn tag_of(kind: u16, member: u16) -> u16
    requires { (kind < 256) × (member < 256) }
    ensures { result ≡ tag_of kind member }
{
    kind + 256 * member
}

// Whether the page with this tag is clean.
pub fn is_clean_tag(tag: u16) -> bool
    ensures { result ≡ clean_tag tag }
{
    is_clean_kind(tag % 256)
}

// The tag at offset a.
fn tag_at(chips: &[u8], a: usize) -> u16
    requires { a + 2 ≤ length chips.now }
    ensures { TagIs result (get_or chips.now a 0) (get_or chips.now (a + 1) 0) }
{
    (byte(chips, a) + 256 * byte(chips, a + MEMBER_AT)) as u16
}

// The tags and stripes of so many pages of chip c, from page `first` on. They are fetched before any is looked up in the records, so that
// no look waits for the one before it.
pub fn fetch_stamps(
    chips: &[u8],
    g: Geometry,
    c: usize,
    first: usize,
    count: usize,
    tags: &mut [u16; 128],
    stripes: &mut [u16; 128],
)
    requires { ChipsFit g chips.now × (c ≤ g.n) × (first < pages (layout_of g)) × (first + count ≤ pages (layout_of g)) × (count ≤ 128)
        × (length tags.old ≡ 128) × (length stripes.old ≡ 128) }
    ensures { StampsOf (page_at (layout_of g) chips.now c) first count tags.new stripes.new
        × (length tags.new ≡ 128) × (length stripes.new ≡ 128) }
{
    let w = g.w as usize;
    let start = page_offset(g, c, first) + w;
    for i in 0..count {
        let a = start + i * (w + SPARE_BYTES);
        tags[i] = tag_at(chips, a);
        stripes[i] = number_at(chips, a + STRIPE_AT) as u16;
    }
}

// None, as a number of two bytes.
const NO_PAGE: u16 = NONE as u16;

// Where the numbers behind the first eight of a record are: the last old ones.
const NINTH_AT: usize = 8 * WIDTH;

// Four numbers that are none.
const NO_OLDS: usize = 18446744073709551615;

// What follows the parity page's number in a plain record: bitmap 0, slot 255, four bytes of 0.
const NO_PARTIAL: usize = 65280;

// For each of the first eight numbers of a plain record, how many pages it may be one of: all for a member's current number, 0 for
// the others, the first two old ones among them. Eight, for as many are compared in one step.
pub fn ranges(g: Geometry) -> [u16; 8]
    requires { limits (layout_of g) ≡ true }
    ensures { Ranges g.n (g.b * g.k) result }
{
    let n = g.n as usize;
    let pages = (g.b * g.k) as u16;
    let mut tops = [0u16; 8];
    tops[..n].fill(pages);
    tops
}

// The four numbers of two bytes from offset a on, as one.
fn word_at(s: &[u8], a: usize) -> usize
    requires { a + 8 ≤ length s.now }
    ensures { WordAt s.now a result }
{
    number_at(s, a)
        + 65536 * number_at(s, a + WIDTH)
        + 4294967296 * number_at(s, a + 2 * WIDTH)
        + 281474976710656 * number_at(s, a + 3 * WIDTH)
}

// Whether all members are written, and nothing else among the eight numbers from offset a on: each is one of its pages, or none where
// it has no pages.
fn all_written(records: &[u8], a: usize, tops: &[u16; 8]) -> bool
    requires { a + 16 ≤ length records.now }
    ensures { result ≡ all_below 8 (written_in tops.now records.now a) }
{
    let mut written = true;
    for i in 0..8 {
        let x = number_at(records, a + WIDTH * i) as u16;
        let top = tops[i];
        written &= (x < top) | ((x == NO_PAGE) & (top == 0));
    }
    written
}

// How a record goes on behind its first eight numbers: two words.
#[derive(Clone, Copy)]
struct Ending {
    // the last four old numbers
    olds: usize,
    // the parity page's number, and all that follows it
    last: usize,
}

// The same of the record at offset a.
fn ending_at(records: &[u8], a: usize) -> Ending
    requires { a + 32 ≤ length records.now }
    ensures { WordAt records.now (a + 16) result.olds × WordAt records.now (a + 24) result.last }
{
    Ending {
        olds: word_at(records, a + NINTH_AT),
        last: word_at(records, a + PARITY_AT),
    }
}

// Whether a record that ends so has none of these old numbers, nothing in the partial parity, and zeros behind.
fn is_clear(end: Ending) -> bool
    ensures { result ≡ true → ((xs : List ℕ) (a : ℕ) → a + 32 ≤ length xs → ((i : ℕ) → get_or xs i 0 < 256)
        → WordAt xs (a + 16) end.olds → WordAt xs (a + 24) end.last → Clear xs a) }
{
    (end.olds == NO_OLDS) & (end.last / 65536 == NO_PARTIAL)
}

// Most stripes are full: all members are written, the parity page is there, and nothing is in the partial parity. Where a first look finds
// stripe j so, its record has one page number for each chip; where it does not, nothing is known.
pub fn seen_full(records: &[u8], g: Geometry, j: usize, tops: &[u16; 8]) -> bool
    requires { RecordsFit g records.now × (j < g.s) × Ranges g.n (g.b * g.k) tops.now }
    ensures { result ≡ true → Plain (layout_of g) (record_at (layout_of g) records.now j) (g.n + 1) }
{
    let a = j * RECORD_BYTES;
    let pages = (g.b * g.k) as usize;
    let end = ending_at(records, a);
    is_clear(end) & (end.last % 65536 < pages) & all_written(records, a, tops)
}

// A second look, at the record of a stripe that is not full. Where nothing is in the partial parity, and every number is one that may be
// there, it answers how many page numbers the record has; else nothing is known.
pub fn glance_at(records: &[u8], g: Geometry, j: usize, tops: &[u16; 8]) -> Option<usize>
    requires { RecordsFit g records.now × (j < g.s) × Ranges g.n (g.b * g.k) tops.now }
    ensures { IfSome result (λ names. Plain (layout_of g) (record_at (layout_of g) records.now j) names) }
{
    let a = j * RECORD_BYTES;
    let pages = (g.b * g.k) as usize;
    let end = ending_at(records, a);
    // most of these are in the partial parity: their numbers are not looked at here
    if !is_clear(end) {
        return None;
    }
    let parity = end.last % 65536;
    let bare = parity == NONE;
    let mut low = true;
    let mut names: usize = 0;
    for m in 0..8 {
        // none is the largest number, and the next one is 0
        let next = ((number_at(records, a + WIDTH * m) + 1) % 65536) as u16;
        low &= next <= tops[m];
        names += usize::from(next != 0);
    }
    let plain = low & (bare | (parity < pages)) & (!bare | (names == 0));
    if !plain {
        return None;
    }
    Some(names + usize::from(!bare))
}
