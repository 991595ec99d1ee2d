//! Pages, slots and records put into their images.

ghost use Rattle.std.specs.Prelude.{◌≡◌, ◌+◌, ◌*◌, ◌≤◌, ◌<◌, length, get_or, replicate};
ghost use Rattle.octets.specs.Number.{digits};
ghost use Rattle.octets.specs.Units.{put, unit_put};
ghost use Rattle.layout.specs.Layout.{layout_of, pages, page_bytes, record_bytes};
ghost use Rattle.layout.specs.Page.{bytes_of_page};
ghost use Rattle.layout.specs.Record.{row, bytes_of_record, empty_record};
ghost use Rattle.layout.specs.Collection.{bytes_of_collection};
ghost use Rattle.steps.specs.Store.{programmed, erased, recorded};
ghost use Rattle.codec.specs.Fit.{ChipsFit, RecordsFit, SlotsFit};
ghost use Rattle.codec.specs.Firsts.{first_units};
ghost use Rattle.codec.specs.Views.{record_from, collection_from, page_from, spare_from, SmallRecord, SmallSpare};

use super::{
    BITMAP_AT, CHIP_AT, COPIED_AT, CollectionRecord, DESTINATION_AT, MEMBER_AT, OLD_AT, PARITY_AT,
    RECORD_BYTES, REST_AT, REST_BYTES, SHORT, SLOT_AT, SPARE_BYTES, STRIPE_AT, Spare, StripeRecord,
    TAIL, TAIL_AT, TAIL_BYTES, VICTIM_AT, WIDTH, ZEROS, ZEROS_AT, page_offset,
};
use layout::Geometry;
use octets::copy;

// What an erase makes of every byte.
const ERASED: u8 = 255;

// The number, in as many bytes as there are.
fn fill_number(dst: &mut [u8], x: usize)
    ensures { dst.new ≡ digits (length dst.old) x }
{
    // by index: what is left of the number goes from byte to byte
    let mut rest = x;
    for i in 0..dst.len() {
        dst[i] = (rest % 256) as u8;
        rest = rest / 256;
    }
}

// The number, in the k bytes at offset a.
fn put_number(dst: &mut [u8], a: usize, k: usize, x: usize)
    requires { a + k ≤ length dst.old }
    ensures { dst.new ≡ put a k (digits k x) dst.old }
{
    let e = a + k;
    fill_number(&mut dst[a..e], x);
}

// Six page numbers, from offset a on.
fn put_six(dst: &mut [u8], a: usize, xs: [usize; 6])
    requires { a + 12 ≤ length dst.old }
    ensures { dst.new ≡ put a 12 (row 2 (λ m. get_or xs m 0) 6) dst.old }
{
    for (m, x) in xs.iter().enumerate() {
        put_number(dst, a + m * WIDTH, WIDTH, *x);
    }
}

// The bytes of a record.
fn fill_record(dst: &mut [u8], e: StripeRecord)
    requires { (length dst.old ≡ 32) × SmallRecord e }
    ensures { (g : Geometry) → dst.new ≡ bytes_of_record (layout_of g) (record_from (layout_of g) e) }
{
    let current = e.current;
    let old = e.old;
    put_six(dst, 0, current);
    put_six(dst, OLD_AT, old);
    put_number(dst, PARITY_AT, WIDTH, e.parity);
    put_number(dst, BITMAP_AT, 1, e.bitmap);
    put_number(dst, SLOT_AT, 1, e.slot);
    put_number(dst, REST_AT, REST_BYTES, 0);
}

// The bytes of a collection record.
fn fill_collection(dst: &mut [u8], co: CollectionRecord)
    requires { (length dst.old ≡ 32) × (co.phase < 256) × (co.chip < 256) }
    ensures { (g : Geometry) → dst.new ≡ bytes_of_collection (layout_of g) (collection_from co) }
{
    put_number(dst, 0, 1, co.phase);
    put_number(dst, CHIP_AT, 1, co.chip);
    put_number(dst, VICTIM_AT, SHORT, co.victim);
    put_number(dst, DESTINATION_AT, SHORT, co.destination);
    put_number(dst, ZEROS_AT, ZEROS, 0);
}

// The spare bytes of a page.
fn fill_spare(dst: &mut [u8], t: Spare)
    requires { (length dst.old ≡ 8) × SmallSpare t }
    ensures { dst.new ≡ spare_from t }
{
    put_number(dst, 0, 1, t.kind);
    put_number(dst, MEMBER_AT, 1, t.member);
    put_number(dst, STRIPE_AT, SHORT, t.stripe);
    put_number(dst, COPIED_AT, WIDTH, t.copied);
    put_number(dst, TAIL_AT, TAIL_BYTES, TAIL);
}

// The page becomes the data and the spare bytes.
fn fill_page(page: &mut [u8], bytes: &[u8], t: Spare)
    requires { (length page.old ≡ length bytes.now + 8) × SmallSpare t }
    ensures { (g : Geometry) → page.new ≡ bytes_of_page (layout_of g) (page_from (layout_of g) bytes.now t) }
{
    let w = bytes.len();
    let e = w + SPARE_BYTES;
    copy(&mut page[..w], bytes);
    fill_spare(&mut page[w..e], t);
}

// Page p of chip c becomes the data and the spare bytes.
pub fn put_page(chips: &mut [u8], g: Geometry, c: usize, p: usize, bytes: &[u8], t: Spare)
    requires { ChipsFit g chips.old × (c ≤ g.n) × (p < pages (layout_of g)) × (length bytes.now ≡ g.w) × SmallSpare t }
    ensures { chips.new ≡ programmed (layout_of g) c p (page_from (layout_of g) bytes.now t) chips.old }
{
    let w = g.w as usize;
    let a = page_offset(g, c, p);
    let e = a + (w + SPARE_BYTES);
    fill_page(&mut chips[a..e], bytes, t);
}

// Block b of chip c becomes clean.
pub fn put_clean_block(chips: &mut [u8], g: Geometry, c: usize, b: usize)
    requires { ChipsFit g chips.old × (c ≤ g.n) × (b < g.b) }
    ensures { chips.new ≡ erased (layout_of g) c b chips.old }
{
    let k = g.k as usize;
    let w = g.w as usize;
    let a = page_offset(g, c, b * k);
    let e = a + k * (w + SPARE_BYTES);
    chips[a..e].fill(ERASED);
}

// The first n blocks of the image become clean: chips stand end to end.
pub fn put_clean_blocks(chips: &mut [u8], g: Geometry, n: usize)
    requires { ChipsFit g chips.old × (n ≤ (g.n + 1) * g.b) }
    ensures { chips.new ≡ first_units (g.k * page_bytes (layout_of g)) n (replicate (g.k * page_bytes (layout_of g)) 255) chips.old }
{
    let k = g.k as usize;
    let w = g.w as usize;
    let e = n * (k * (w + SPARE_BYTES));
    chips[..e].fill(ERASED);
}

// Slot i becomes the bytes.
pub fn put_slot(slots: &mut [u8], g: Geometry, i: usize, bytes: &[u8])
    requires { SlotsFit g slots.old × (i ≤ g.m) × (length bytes.now ≡ g.w) }
    ensures { slots.new ≡ unit_put g.w i bytes.now slots.old }
{
    let w = g.w as usize;
    let a = i * w;
    let e = a + w;
    copy(&mut slots[a..e], bytes);
}

// The record of stripe j.
pub fn put_record(records: &mut [u8], g: Geometry, j: usize, r: StripeRecord)
    requires { RecordsFit g records.old × (j < g.s) × SmallRecord r }
    ensures { records.new ≡ recorded (layout_of g) j (bytes_of_record (layout_of g) (record_from (layout_of g) r)) records.old }
{
    let a = j * RECORD_BYTES;
    let e = a + RECORD_BYTES;
    fill_record(&mut records[a..e], r);
}

// The collection record.
pub fn put_collection(records: &mut [u8], g: Geometry, co: CollectionRecord)
    requires { RecordsFit g records.old × (co.phase < 256) × (co.chip < 256) }
    ensures { records.new ≡ recorded (layout_of g) g.s (bytes_of_collection (layout_of g) (collection_from co)) records.old }
{
    let s = g.s as usize;
    let a = s * RECORD_BYTES;
    let e = a + RECORD_BYTES;
    fill_collection(&mut records[a..e], co);
}

// Twenty-six bytes of 255, a 0, a 255 and four of 0.
const EMPTY: [u8; 32] =
    *b"\xff\xff\xff\xff\xff\xff\xff\xff\xff\xff\xff\xff\xff\xff\xff\xff\xff\xff\xff\xff\xff\xff\xff\xff\xff\xff\x00\xff\x00\x00\x00\x00";

// The first n records become empty.
pub fn put_empty_records(records: &mut [u8], g: Geometry, n: usize)
    requires { RecordsFit g records.old × (n ≤ g.s) }
    ensures { records.new ≡ first_units (record_bytes (layout_of g)) n (bytes_of_record (layout_of g) (empty_record (layout_of g))) records.old }
{
    // by index: of what a loop over chunks_exact_mut writes, a proof knows only the length
    for j in 0..n {
        let first = j * RECORD_BYTES;
        let end = first + RECORD_BYTES;
        copy(&mut records[first..end], &EMPTY);
    }
}
