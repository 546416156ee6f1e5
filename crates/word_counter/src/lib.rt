// A counter of either kind, and the order of two counters of one kind. It relies on nothing.
#![tactic(auto)]

ghost use Rattle.std.specs.Prelude.{◌≡◌, ℕ};
ghost use Rattle.word_counter.specs.Order.{exceeds_n, reaches_n, equals_n, beyond_n};

// A counter or a ticket number of the exclusive kind, nX or mX.
#[repr(C)]
#[derive(Clone, Copy, PartialEq, Eq, Debug)]
pub struct Exclusive(pub u16);

// A counter or a ticket number of the shared kind, nS or mS.
#[repr(C)]
#[derive(Clone, Copy, PartialEq, Eq, Debug)]
pub struct Shared(pub u16);

// What the two kinds have in common, and the comparisons of two counters of one kind. No comparison takes one of each kind.
// They are functions and no derived order: each has its contract in docs/CONTRACTS.md, and the edits in must-fail/ change their bodies.
pub trait Counting: Copy {
    // the number that a counter has come to
    ghost held: { Self → ℕ };

    fn number(self) -> u16
        ensures { result ≡ held self };

    // self > other
    final fn exceeds(self, other: Self) -> bool
        ensures { result ≡ exceeds_n (held self) (held other) }
    {
        other.number() < self.number()
    }

    // self >= other
    final fn reaches(self, other: Self) -> bool
        ensures { result ≡ reaches_n (held self) (held other) }
    {
        other.number() <= self.number()
    }

    // self = other
    final fn equals(self, other: Self) -> bool
        ensures { result ≡ equals_n (held self) (held other) }
    {
        self.number() == other.number()
    }

    // self - other, 0 where that would be negative
    final fn beyond(self, other: Self) -> u64
        ensures { result ≡ beyond_n (held self) (held other) }
    {
        self.number().saturating_sub(other.number()) as u64
    }
}

// In both the field is taken apart by name, so that an edit can change one kind alone.
impl Counting for Exclusive {
    ghost held = { λ c. c.0 };

    fn number(self) -> u16 {
        let Exclusive(drawn) = self;
        drawn
    }
}

impl Counting for Shared {
    ghost held = { λ c. c.0 };

    fn number(self) -> u16 {
        let Shared(drawn) = self;
        drawn
    }
}
