// The lock word: {nX, nS, mX, mS} in one u64. It uses the types of `word_counter` and knows nothing of requests, tickets or boards.
#![tactic(auto)]

ghost use Rattle.std.specs.Prelude.{◌≡◌};
ghost use Rattle.word_layout.specs.Word.{step_of, back_of, split_of, join_of};

use word_counter::{Exclusive, Shared};

// The four counters of a word: releases nX and nS, next tickets mX and mS.
#[repr(C)]
#[derive(Clone, Copy, PartialEq, Eq, Debug)]
pub struct Counters {
    pub nx: Exclusive,
    pub ns: Shared,
    pub mx: Exclusive,
    pub ms: Shared,
}

// Which of the four.
#[derive(Clone, Copy, PartialEq, Eq, Debug)]
pub enum Counter {
    NX,
    NS,
    MX,
    MS,
}

const STEP_NX: u64 = 1 << 48;

const STEP_NS: u64 = 1 << 32;

const STEP_MX: u64 = 1 << 16;

const STEP_MS: u64 = 1;

const WIDTH: u64 = 1 << 16;

// The number that adds one to a counter. `step` is the word of rule 1.4, and no conversion of the counter.
pub fn step(k: Counter) -> u64
    ensures { result ≡ step_of k }
{
    match k {
        Counter::NX => STEP_NX,
        Counter::NS => STEP_NS,
        Counter::MX => STEP_MX,
        Counter::MS => STEP_MS,
    }
}

// The number that takes one back from a counter.
pub fn back(k: Counter) -> u64
    ensures { result ≡ back_of k }
{
    step(k).wrapping_neg()
}

// The counters of a word.
impl From<u64> for Counters {
    ghost from_gives = { λ w c. c ≡ split_of w };

    fn from(w: u64) -> Counters {
        Counters {
            nx: Exclusive((w / STEP_NX % WIDTH) as u16),
            ns: Shared((w / STEP_NS % WIDTH) as u16),
            mx: Exclusive((w / STEP_MX % WIDTH) as u16),
            ms: Shared((w / STEP_MS % WIDTH) as u16),
        }
    }
}

// The word of four counters.
impl From<Counters> for u64 {
    ghost from_gives = { λ c w. w ≡ join_of c };

    fn from(c: Counters) -> u64 {
        c.nx.0 as u64 * STEP_NX
            + c.ns.0 as u64 * STEP_NS
            + c.mx.0 as u64 * STEP_MX
            + c.ms.0 as u64 * STEP_MS
    }
}
