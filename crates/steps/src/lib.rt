//! What a call counts, and how far it is.

#![tactic(auto)]

ghost use Rattle.std.specs.Prelude.{◌≡◌};
ghost use Rattle.steps.specs.Steps.{reading};

#[derive(Clone, Copy)]
pub struct Counts {
    // pages read, data or parity
    pub reads: u64,
    // pages programmed
    pub programs: u64,
    // blocks erased
    pub erases: u64,
    // stores made, of whatever kind
    pub stores: u64,
}

impl Counts {
    // Those of a refusal.
    pub const NONE: Counts = Counts {
        reads: 0,
        programs: 0,
        erases: 0,
        stores: 0,
    };

    // Those of a call that has read so many pages, and stored nothing.
    pub fn of_reads(reads: u64) -> Self
        ensures { result ≡ reading reads }
    {
        Counts {
            reads,
            ..Self::NONE
        }
    }
}

// A call under way. By value: every store takes it and gives it back. No ghost field says that it is sane, for definitions make one of its
// fields (`started`, `after`).
#[derive(Clone, Copy)]
pub struct Progress {
    pub counts: Counts,
    // what is left of the allowance
    pub left: u64,
    // a store was due with nothing left
    pub cut: bool,
}
