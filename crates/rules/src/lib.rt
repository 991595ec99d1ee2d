//! What the calls of a store answer, and the words in which a page is asked for.

#![tactic(auto)]

use steps::Counts;

// What a page of a stripe is to its record; members by number.
#[derive(Clone, Copy)]
pub enum Role {
    Current(usize),
    Old(usize),
    Parity,
}

// How the bytes of a page were got; document 02, 2: "one of four things", in its order.
#[derive(Clone, Copy)]
pub enum Origin {
    // never written: there is no page
    Unwritten,
    // off its chip
    Direct,
    // rebuilt through the partial parity
    Partial,
    // rebuilt through the full parity
    Full,
}

// The rows of document 01's table, "Where a call is turned back", named by its first column.
#[derive(Clone, Copy)]
pub enum Refusal {
    Geometry,
    Buffers,
    LostChip,
    Records,
    Spares,
    Collection,
    Request,
    Data,
    ChipSet,
    Work,
    // document 02, 1: a ticket breaks its rules
    Tickets,
    // document 02, 1: the log fills every page
    FullLog,
}

// What the checks of a call come to.
pub type Check = Result<(), Refusal>;

// The answer of a call that stores and is not refused.
#[derive(Clone, Copy)]
pub enum Answer {
    Done(Counts),
    Cut(Counts),
}

// The answer of a read, which stores nothing and so is never cut: its counts, and how its page was got.
#[derive(Clone, Copy)]
pub struct Reading {
    pub counts: Counts,
    pub origin: Origin,
}

// A ticket: 16 bytes, as document 02, 1 has them.
#[derive(Clone, Copy)]
pub struct Ticket {
    // 0 empty, 1 weight, 2 withdrawal; no enum, for it may be any byte, which `ticket_sound` judges
    pub kind: u8,
    // a zero byte
    pub blank: u8,
    pub bag: u16,
    pub lot: u32,
    // in grams
    pub gross: u32,
    pub tare: u32,
}

// A weight, in grams.
#[derive(Clone, Copy)]
pub struct Weight {
    pub gross: u32,
    pub tare: u32,
}

// The answer of a question for a lot and bag, which stores nothing: the weight that stands, if one does.
#[derive(Clone, Copy)]
pub struct Finding {
    pub counts: Counts,
    pub standing: Option<Weight>,
    pub origin: Origin,
}
