// A request as it is kept: plain numbers that a C caller can store, and how they are read.
// It uses the types of `word_counter` and `agent_ticket` and calls none of their functions. It knows no verb and no lock word.
#![tactic(auto)]

ghost use Rattle.std.specs.Prelude.{◌≡◌};
ghost use Rattle.agent_request.specs.Request.{phase_number, phase_of, mode_of, in_use, free_request, opened_request, in_phase};

use agent_ticket::{Mode, Ticket};
use word_counter::{Exclusive, Shared};

// How a request keeps that it has no clearing word. A number, no `Option`: the C interface has a request as 16 bytes, all 0 when free.
pub const NONE: u64 = 0;

// A request: plain numbers that C can hold, 16 bytes, all 0 when free. A clearing word of 0 is none.
#[repr(C)]
#[derive(Clone, Copy, PartialEq, Eq, Debug)]
pub struct Request {
    pub record: u16,
    pub mode: u8,
    pub phase: u8,
    pub ticket: Ticket,
    pub clearing: u64,
}

#[derive(Clone, Copy, PartialEq, Eq, Debug)]
pub enum Phase {
    Free = 0,
    Asking = 1,
    Waiting = 2,
    Held = 3,
    Owing = 4,
    Clearing = 5,
}

// The number that a phase is kept as.
impl From<Phase> for u8 {
    ghost from_gives = { λ p n. n ≡ phase_number p };

    fn from(p: Phase) -> u8 {
        p as u8
    }
}

// The phase of a kept number: any number but 1 to 5 counts as free.
impl From<u8> for Phase {
    ghost from_gives = { λ n p. p ≡ phase_of n };

    fn from(n: u8) -> Phase {
        match n {
            1 => Phase::Asking,
            2 => Phase::Waiting,
            3 => Phase::Held,
            4 => Phase::Owing,
            5 => Phase::Clearing,
            _ => Phase::Free,
        }
    }
}

// The mode of a kept number: any number but 0 counts as 1.
// A function, not `From`: neither type is of this crate, and `agent_ticket`, which has `Mode`, knows of no kept number (rule 2.2).
pub fn mode_of(n: u8) -> Mode
    ensures { result ≡ mode_of n }
{
    if n == 0 { Mode::Reader } else { Mode::Writer }
}

// Whether a request is in use: in every phase but free.
pub fn in_use(q: Request) -> bool
    ensures { result ≡ in_use q }
{
    Phase::from(q.phase) != Phase::Free
}

// The one content of a free slot.
pub fn free() -> Request
    ensures { result ≡ free_request }
{
    Request {
        record: 0,
        mode: 0,
        phase: u8::from(Phase::Free),
        ticket: Ticket(Exclusive(0), Shared(0)),
        clearing: NONE,
    }
}

// A request that is to ask for a record.
pub fn opened(record: u16, mode: u8) -> Request
    ensures { result ≡ opened_request «record» mode }
{
    Request {
        record,
        mode,
        phase: u8::from(Phase::Asking),
        ..free()
    }
}

// The request in another phase, all else as it was.
pub fn in_phase(q: Request, p: Phase) -> Request
    ensures { result ≡ in_phase p q }
{
    Request {
        phase: u8::from(p),
        ..q
    }
}
