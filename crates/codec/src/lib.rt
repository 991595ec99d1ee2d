//! Pages, records and the collection record as they lie in their images, and where the pages of a stripe stand. All that knows
//! offsets and lengths is in this crate. A function is lent the one image that it looks at or stores into, and no view of all three.

#![tactic(auto, unfolding(layout::specs::Images::records_length))]

pub mod limits;
pub mod put;
pub mod scan;

ghost use Rattle.std.specs.Prelude.{◌≡◌, ◌≢◌, true, ℕ, ◌+◌, ◌*◌, ◌/◌, ◌%◌, ◌^◌, ◌≤◌, ◌<◌, length, get_or, eqb};
ghost use Rattle.layout.specs.Layout.{Layout, layout_of, limits, pages};
ghost use Rattle.layout.specs.Rotation.{parity_chip, member_chip, member_on};
ghost use Rattle.layout.specs.Page.{is_clean_kind, clean, page_at};
ghost use Rattle.layout.specs.Record.{record_at};
ghost use Rattle.layout.specs.Collection.{collection_at};
ghost use Rattle.layout.specs.Images.{slot_at, chips_length};
ghost use Rattle.codec.specs.Fit.{ChipsFit, RecordsFit, SlotsFit};
ghost use Rattle.codec.specs.Views.{record_from, ended, spare_of, six_at, SmallRecord, SmallSpare, CollectionIs};

use layout::Geometry;
use octets::{byte, number_at, zeros};

// The bytes of a page number.
const WIDTH: usize = 2;

// The number of no page. No Option: records and spares hold this number, and the definitions name it (`none` in `layout`).
pub const NONE: usize = 65535;

// The slot of a record without one. No Option, as for pages (`has_slot`).
pub const NO_SLOT: usize = 255;
// The bytes of a stripe's number in a spare, and of a block's in the collection record.
const SHORT: usize = 2;
// The bytes of a record, and where its fields are.
const RECORD_BYTES: usize = 16 * WIDTH;

const OLD_AT: usize = 6 * WIDTH;

const PARITY_AT: usize = 12 * WIDTH;

const BITMAP_AT: usize = 13 * WIDTH;

const SLOT_AT: usize = BITMAP_AT + 1;

const REST_AT: usize = SLOT_AT + 1;

const REST_BYTES: usize = RECORD_BYTES - REST_AT;

// Where the fields of the collection record are: its chip behind the phase, then the blocks; where the zeros behind them begin, and
// how many they are.
const CHIP_AT: usize = 1;

const VICTIM_AT: usize = 2;

const DESTINATION_AT: usize = VICTIM_AT + SHORT;

const ZEROS_AT: usize = DESTINATION_AT + SHORT;

const ZEROS: usize = RECORD_BYTES - ZEROS_AT;
// The spare bytes of a page, and where its fields are: the member behind the kind, then stripe and page copied from. Behind these is
// the tail: each of its bytes is 255, as an erase leaves it.
const SPARE_BYTES: usize = 8;

const MEMBER_AT: usize = 1;

const STRIPE_AT: usize = 2;

const COPIED_AT: usize = STRIPE_AT + SHORT;

const TAIL_AT: usize = COPIED_AT + WIDTH;

const TAIL_BYTES: usize = SPARE_BYTES - TAIL_AT;

const TAIL: usize = 65535;
// The kinds of pages. No enum: a spare may hold any other byte, and `twin` compares those too.
const CLEAN: u16 = 255;

pub const DATA: usize = 68;

pub const PARITY: usize = 80;

// The record of a stripe, but for the zeros behind it. It has six places whatever N is, as in the holding memory.
#[derive(Clone, Copy)]
pub struct StripeRecord {
    pub current: [usize; 6],
    pub old: [usize; 6],
    pub parity: usize,
    pub bitmap: usize,
    pub slot: usize,
}

// The collection record, but for the zeros behind it. Its phase is no enum: it may hold any byte, which `collection_sound` judges.
#[derive(Clone, Copy, Default)]
pub struct CollectionRecord {
    pub phase: usize,
    pub chip: usize,
    pub victim: usize,
    pub destination: usize,
}

// The spare bytes of a page, but for the tail. No ghost field says that they are small: `spare_of` makes them of any page.
#[derive(Clone, Copy)]
pub struct Spare {
    pub kind: usize,
    pub member: usize,
    pub stripe: usize,
    pub copied: usize,
}

// The chip with the parity of stripe j.
pub fn parity_chip(g: Geometry, j: usize) -> usize
    requires { limits (layout_of g) ≡ true }
    ensures { (result ≡ parity_chip (layout_of g) j) × (result ≤ g.n) }
{
    // a remainder by a constant takes no division
    match g.n as usize {
        2 => 2 - j % 3,
        3 => 3 - j % 4,
        4 => 4 - j % 5,
        5 => 5 - j % 6,
        _ => 6 - j % 7,
    }
}

// The chip of member m of a stripe whose parity is on chip `parity`.
pub fn chip_beside(parity: usize, m: usize) -> usize
    requires { m < 6 }
    ensures { ((l : Layout) (j : ℕ) → parity ≡ parity_chip l j → result ≡ member_chip l j m) × (result ≤ m + 1) }
{
    if m < parity { m } else { m + 1 }
}

// The chip of member m of stripe j.
pub fn member_chip(g: Geometry, j: usize, m: usize) -> usize
    requires { (limits (layout_of g) ≡ true) × (m < g.n) }
    ensures { (result ≡ member_chip (layout_of g) j m) × (result ≤ g.n) }
{
    chip_beside(parity_chip(g, j), m)
}

// The member on chip c of a stripe whose parity is on chip `parity`, another one.
pub fn member_on(g: Geometry, parity: usize, c: usize) -> usize
    requires { (limits (layout_of g) ≡ true) × (c ≤ g.n) × (parity ≤ g.n) × (c ≢ parity) }
    ensures { ((j : ℕ) → parity ≡ parity_chip (layout_of g) j → result ≡ member_on (layout_of g) j c) × (result < g.n) × (result < 6) }
{
    if c < parity { c } else { c - 1 }
}

// The offset of page p of chip c in the chip image.
fn page_offset(g: Geometry, c: usize, p: usize) -> usize
    requires { (limits (layout_of g) ≡ true) × (c ≤ g.n) × (p < pages (layout_of g)) }
    ensures { (result ≡ (c * pages (layout_of g) + p) * (g.w + 8)) × (result + (g.w + 8) ≤ chips_length (layout_of g)) }
{
    let b = g.b as usize;
    let k = g.k as usize;
    let w = g.w as usize;
    (c * (b * k) + p) * (w + SPARE_BYTES)
}

// What the spare bytes of page p of chip c say.
pub fn spare_at(chips: &[u8], g: Geometry, c: usize, p: usize) -> Spare
    requires { ChipsFit g chips.now × (c ≤ g.n) × (p < pages (layout_of g)) }
    ensures { (result ≡ spare_of (page_at (layout_of g) chips.now c p)) × SmallSpare result }
{
    let w = g.w as usize;
    let a = page_offset(g, c, p) + w;
    Spare {
        kind: byte(chips, a),
        member: byte(chips, a + MEMBER_AT),
        stripe: number_at(chips, a + STRIPE_AT),
        copied: number_at(chips, a + COPIED_AT),
    }
}

// Whether a page of this kind is clean.
fn is_clean_kind(kind: u16) -> bool
    ensures { result ≡ is_clean_kind kind }
{
    kind == CLEAN
}

// Whether page p of chip c is clean.
pub fn is_clean(chips: &[u8], g: Geometry, c: usize, p: usize) -> bool
    requires { ChipsFit g chips.now × (c ≤ g.n) × (p < pages (layout_of g)) }
    ensures { result ≡ clean (page_at (layout_of g) chips.now c p) }
{
    let w = g.w as usize;
    is_clean_kind(byte(chips, page_offset(g, c, p) + w) as u16)
}

// The data of page p of chip c. Not one with `slot_data`: each is little but its own offset.
pub fn page_data(chips: &[u8], g: Geometry, c: usize, p: usize) -> &[u8]
    requires { ChipsFit g chips.now × (c ≤ g.n) × (p < pages (layout_of g)) }
    ensures { (result.now ≡ (page_at (layout_of g) chips.now c p).bytes) × (length result.now ≡ g.w) }
{
    let w = g.w as usize;
    let a = page_offset(g, c, p);
    let e = a + w;
    &chips[a..e]
}

// Slot i.
pub fn slot_data(slots: &[u8], g: Geometry, i: usize) -> &[u8]
    requires { SlotsFit g slots.now × (i ≤ g.m) }
    ensures { (result.now ≡ slot_at (layout_of g) slots.now i) × (length result.now ≡ g.w) }
{
    let w = g.w as usize;
    let a = i * w;
    let e = a + w;
    &slots[a..e]
}

// The six numbers of two bytes at offset a.
fn six_at(s: &[u8], a: usize) -> [usize; 6]
    requires { a + 12 ≤ length s.now }
    ensures { (result ≡ six_at a s.now) × ((m : ℕ) → get_or result m 0 < 65536) }
{
    [
        number_at(s, a),
        number_at(s, a + WIDTH),
        number_at(s, a + 2 * WIDTH),
        number_at(s, a + 3 * WIDTH),
        number_at(s, a + 4 * WIDTH),
        number_at(s, a + 5 * WIDTH),
    ]
}

// The record of stripe j, but for the zeros behind it.
pub fn record_at(records: &[u8], g: Geometry, j: usize) -> StripeRecord
    requires { RecordsFit g records.now × (j < g.s) }
    ensures { (record_from (layout_of g) result ≡ ended (record_at (layout_of g) records.now j)) × SmallRecord result }
{
    let a = j * RECORD_BYTES;
    StripeRecord {
        current: six_at(records, a),
        old: six_at(records, a + OLD_AT),
        parity: number_at(records, a + PARITY_AT),
        bitmap: byte(records, a + BITMAP_AT),
        slot: byte(records, a + SLOT_AT),
    }
}

// Whether the bytes behind the record of stripe j are zeros. Not one with `collection_ends`: each is little but its own bounds.
pub fn record_ends(records: &[u8], g: Geometry, j: usize) -> bool
    requires { RecordsFit g records.now × (j < g.s) }
    ensures { result ≡ eqb (record_at (layout_of g) records.now j).rest 0 }
{
    let a = j * RECORD_BYTES + REST_AT;
    let e = a + REST_BYTES;
    zeros(&records[a..e])
}

// The bitmap of stripe j. Not one with `slot_at`: each is one read.
pub fn bitmap_at(records: &[u8], g: Geometry, j: usize) -> usize
    requires { RecordsFit g records.now × (j < g.s) }
    ensures { (result ≡ (record_at (layout_of g) records.now j).bitmap) × (result < 256) }
{
    byte(records, j * RECORD_BYTES + BITMAP_AT)
}

// The slot of stripe j.
pub fn slot_at(records: &[u8], g: Geometry, j: usize) -> usize
    requires { RecordsFit g records.now × (j < g.s) }
    ensures { (result ≡ (record_at (layout_of g) records.now j).slot) × (result < 256) }
{
    byte(records, j * RECORD_BYTES + SLOT_AT)
}

// The collection record, but for the zeros behind it.
pub fn collection_at(records: &[u8], g: Geometry) -> CollectionRecord
    requires { RecordsFit g records.now }
    ensures { CollectionIs result (collection_at (layout_of g) records.now) }
{
    let s = g.s as usize;
    let a = s * RECORD_BYTES;
    CollectionRecord {
        phase: byte(records, a),
        chip: byte(records, a + CHIP_AT),
        victim: number_at(records, a + VICTIM_AT),
        destination: number_at(records, a + DESTINATION_AT),
    }
}

// Whether the bytes behind the collection record are zeros.
pub fn collection_ends(records: &[u8], g: Geometry) -> bool
    requires { RecordsFit g records.now }
    ensures { result ≡ eqb (collection_at (layout_of g) records.now).rest 0 }
{
    let s = g.s as usize;
    let a = s * RECORD_BYTES + ZEROS_AT;
    let e = a + ZEROS;
    zeros(&records[a..e])
}

// Whether bit m of a bitmap is set.
pub fn bit_of(bitmap: usize, m: usize) -> bool
    requires { m < 8 }
    ensures { result ≡ eqb (bitmap / 2 ^ m % 2) 1 }
{
    (bitmap >> m) % 2 == 1
}
