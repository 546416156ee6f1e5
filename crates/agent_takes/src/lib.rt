// What one request becomes when the result of its verb arrives, for any u64 as that result. It relies on the contracts of `word_layout`,
// `agent_ticket`, `agent_ceiling` and `agent_request` alone. It sees a lock word only as a verb's result, and never looks at the record
// number.
#![tactic(auto)]

ghost use Rattle.std.specs.Prelude.{◌≡◌};
ghost use Rattle.agent_rules.specs.Life.{becomes, freed, waited, ticketed, asked, swapped, let_go, step_takes, release_takes};

use agent_request::{NONE, Phase, Request, in_phase, mode_of};
use agent_rules::{Answer, Taken};
use agent_ticket::{Ticket, Turn};
use word_layout::Counters;

// What a request became, with what it is told: the word of the rules (`Life.antt`), and shorter in each arm than the struct.
fn becomes(q: Request, a: Answer) -> Taken
    ensures { result ≡ becomes q a }
{
    Taken {
        request: q,
        answer: a,
    }
}

// The slot is free, whatever it held.
fn freed(a: Answer) -> Taken
    ensures { result ≡ freed a }
{
    becomes(agent_request::free(), a)
}

// What a request with a ticket becomes by the turn test at the counters v.
fn waited_with(q: Request, v: Counters) -> Taken
    ensures { result ≡ waited q v }
{
    match agent_ticket::turn_of(mode_of(q.mode), q.ticket, v) {
        Turn::Passed => freed(Answer::Passed),
        Turn::Granted => becomes(in_phase(q, Phase::Held), Answer::Granted),
        Turn::Ahead(n) => becomes(in_phase(q, Phase::Waiting), Answer::Waiting(n)),
    }
}

fn with_ticket(q: Request, p: Counters) -> Request
    ensures { result ≡ ticketed q p }
{
    Request {
        ticket: Ticket(p.mx, p.ms),
        clearing: agent_ceiling::clearing_word(mode_of(q.mode), p).unwrap_or(NONE),
        ..q
    }
}

// What an Asking request becomes, with p the counters of the word that came back.
#[tactic(auto, unfolding(agent_rules::specs::Life::asked))]
fn asked_with(q: Request, p: Counters) -> Taken
    ensures { result ≡ asked q p }
{
    if agent_ceiling::full(p) {
        becomes(in_phase(q, Phase::Owing), Answer::Full)
    } else {
        waited_with(with_ticket(q, p), p)
    }
}

// Clearing, with v the word that the swap returned.
fn swapped_with(q: Request, v: u64) -> Taken
    ensures { result ≡ swapped q v }
{
    if v == q.clearing {
        freed(Answer::Cleared)
    } else {
        becomes(q, Answer::NotYetClear)
    }
}

// Held, let go.
fn let_go(q: Request) -> Taken
    ensures { result ≡ let_go q }
{
    if q.clearing == NONE {
        freed(Answer::Released)
    } else {
        becomes(in_phase(q, Phase::Clearing), Answer::ClearingDue)
    }
}

// Here and below request and result are two, as in `Life.antt`.
// What the request becomes when the result v of its step's verb arrives.
#[tactic(auto, unfolding(agent_rules::specs::Life::step_takes))]
pub fn step_takes(q: Request, v: u64) -> Taken
    ensures { result ≡ step_takes q v }
{
    match Phase::from(q.phase) {
        Phase::Free | Phase::Held => becomes(q, Answer::WrongPhase),
        Phase::Asking => asked_with(q, Counters::from(v)),
        Phase::Waiting => waited_with(q, Counters::from(v)),
        Phase::Owing => freed(Answer::Withdrawn),
        Phase::Clearing => swapped_with(q, v),
    }
}

// What the request becomes when the result v of its release's verb arrives: it is the same for every v.
#[tactic(auto, unfolding(agent_rules::specs::Life::release_takes))]
pub fn release_takes(q: Request, v: u64) -> Taken
    ensures { result ≡ release_takes q v }
{
    match Phase::from(q.phase) {
        Phase::Held => let_go(q),
        _ => becomes(q, Answer::WrongPhase),
    }
}
