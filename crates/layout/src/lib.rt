//! The geometry of a store, as its caller gives it, and the chip that may be lost.

#![tactic(auto)]

// The lost chip where none is. No Option: C gives this number, and the definitions name it (`no_chip`).
pub const NO_CHIP: usize = 255;

// Letters and limits are those of document 01; any numbers may be given.
#[repr(C)]
#[derive(Clone, Copy)]
pub struct Geometry {
    // data pages to a stripe
    pub n: u64,
    // data bytes to a page
    pub w: u64,
    // pages to a block
    pub k: u64,
    // blocks to a chip
    pub b: u64,
    // stripes
    pub s: u64,
    // partial parities
    pub m: u64,
}
