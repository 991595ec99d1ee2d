//! What every call answers alike.

#![tactic(auto)]

ghost use Rattle.std.specs.Prelude.{◌≡◌, cond, None};
ghost use Rattle.steps.specs.Steps.{no_counts};
ghost use Rattle.rules.specs.Refusals.{refusal_number};
ghost use Rattle.rules.specs.Origins.{origin_number};
ghost use Rattle.rules.specs.declared.Answer.TheVariants.{Cut, Done};
ghost use Rattle.answers.specs.Reports.{report_of, origin_report_of, standing_report_of, reported, read_reported, find_reported};

use rules::{Answer, Finding, Origin, Reading, Refusal, Weight};
use steps::{Counts, Progress};

// 0 for done, 255 for cut, or the number of the refusal; and the counts.
#[repr(C)]
#[derive(Clone, Copy)]
pub struct Report {
    pub status: u64,
    pub reads: u64,
    pub programs: u64,
    pub erases: u64,
    pub stores: u64,
}

// The same of a read; then the number of how its page was got, of a refusal 0.
#[repr(C)]
#[derive(Clone, Copy)]
pub struct ReadReport {
    pub status: u64,
    pub reads: u64,
    pub programs: u64,
    pub erases: u64,
    pub stores: u64,
    pub origin: u64,
}

// The same of a question; then 1 where a weight stands, and its grams, else zeros; then how the log's pages were got.
#[repr(C)]
#[derive(Clone, Copy)]
pub struct FindReport {
    pub status: u64,
    pub reads: u64,
    pub programs: u64,
    pub erases: u64,
    pub stores: u64,
    pub standing: u64,
    pub gross: u64,
    pub tare: u64,
    pub origin: u64,
}

// The number of a refusal in the table. No cast: the table's numbers stand here, and an enum cannot have one of them twice, as three
// must-fail edits of this function do.
pub fn refusal_number(r: Refusal) -> u64
    ensures { result ≡ refusal_number r }
{
    match r {
        Refusal::Geometry => 1,
        Refusal::Buffers => 2,
        Refusal::LostChip => 3,
        Refusal::Records => 4,
        Refusal::Spares => 5,
        Refusal::Collection => 6,
        Refusal::Request => 7,
        Refusal::Data => 8,
        Refusal::ChipSet => 9,
        Refusal::Work => 10,
        Refusal::Tickets => 11,
        Refusal::FullLog => 12,
    }
}

// The number of how a page was got; no cast, as for a refusal.
pub fn origin_number(o: Origin) -> u64
    ensures { result ≡ origin_number o }
{
    match o {
        Origin::Unwritten => 0,
        Origin::Direct => 1,
        Origin::Partial => 2,
        Origin::Full => 3,
    }
}

// The answer of a call that stores. No From: neither type is of this crate.
pub fn answer(p: Progress) -> Answer
    ensures { result ≡ cond p.cut (Cut p.counts) (Done p.counts) }
{
    let counts = p.counts;
    if p.cut {
        Answer::Cut(counts)
    } else {
        Answer::Done(counts)
    }
}

// A report of an answer that has counts.
pub fn with_counts(status: u64, c: Counts) -> Report
    ensures { result ≡ report_of status c }
{
    Report {
        status,
        reads: c.reads,
        programs: c.programs,
        erases: c.erases,
        stores: c.stores,
    }
}

// A report of a refusal.
pub fn without_counts(r: Refusal) -> Report
    ensures { result ≡ report_of (refusal_number r) no_counts }
{
    with_counts(refusal_number(r), Counts::NONE)
}

// Of a call that stores.
impl From<Result<Answer, Refusal>> for Report {
    ghost from_gives = { λ given report. report ≡ reported given };

    fn from(given: Result<Answer, Refusal>) -> Report {
        match given {
            Ok(Answer::Done(c)) => with_counts(0, c),
            Ok(Answer::Cut(c)) => with_counts(255, c),
            Err(r) => without_counts(r),
        }
    }
}

// A report of a read that has counts.
pub fn with_origin(status: u64, counts: Counts, origin: u64) -> ReadReport
    ensures { result ≡ origin_report_of status counts origin }
{
    ReadReport {
        status,
        reads: counts.reads,
        programs: counts.programs,
        erases: counts.erases,
        stores: counts.stores,
        origin,
    }
}

// A report of a read that is refused.
pub fn without_origin(r: Refusal) -> ReadReport
    ensures { result ≡ origin_report_of (refusal_number r) no_counts 0 }
{
    with_origin(refusal_number(r), Counts::NONE, 0)
}

// Of a read.
impl From<Result<Reading, Refusal>> for ReadReport {
    ghost from_gives = { λ given report. report ≡ read_reported given };

    fn from(given: Result<Reading, Refusal>) -> ReadReport {
        match given {
            Ok(x) => with_origin(0, x.counts, origin_number(x.origin)),
            Err(r) => without_origin(r),
        }
    }
}

// A report of a question that has counts.
pub fn with_standing(status: u64, counts: Counts, x: Option<Weight>, origin: u64) -> FindReport
    ensures { result ≡ standing_report_of status counts x origin }
{
    let (standing, gross, tare) = match x {
        Some(w) => (1, w.gross as u64, w.tare as u64),
        None => (0, 0, 0),
    };
    FindReport {
        status,
        reads: counts.reads,
        programs: counts.programs,
        erases: counts.erases,
        stores: counts.stores,
        standing,
        gross,
        tare,
        origin,
    }
}

// A report of a question that is refused.
pub fn without_standing(r: Refusal) -> FindReport
    ensures { result ≡ standing_report_of (refusal_number r) no_counts None 0 }
{
    with_standing(refusal_number(r), Counts::NONE, None, 0)
}

// Of a question.
impl From<Result<Finding, Refusal>> for FindReport {
    ghost from_gives = { λ given report. report ≡ find_reported given };

    fn from(given: Result<Finding, Refusal>) -> FindReport {
        match given {
            Ok(x) => with_standing(0, x.counts, x.standing, origin_number(x.origin)),
            Err(r) => without_standing(r),
        }
    }
}
