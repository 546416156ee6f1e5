// What one request sends next. It relies on the contracts of `word_layout` and `agent_request` alone.
#![tactic(auto)]

ghost use Rattle.std.specs.Prelude.{◌≡◌};
ghost use Rattle.agent_rules.specs.Life.{ticket_counter, release_counter, step_sends, release_sends};

use agent_request::{Phase, Request, mode_of};
use agent_rules::Verb;
use agent_ticket::Mode;
use word_layout::Counter;

// Two words of the rules (`Life.antt`): a step needs the one, a release the other.
fn ticket_counter(m: Mode) -> Counter
    ensures { result ≡ ticket_counter m }
{
    match m {
        Mode::Reader => Counter::MS,
        Mode::Writer => Counter::MX,
    }
}

fn release_counter(m: Mode) -> Counter
    ensures { result ≡ release_counter m }
{
    match m {
        Mode::Reader => Counter::NS,
        Mode::Writer => Counter::NX,
    }
}

// What a step of the request sends; Nothing where a step is refused.
#[tactic(auto, unfolding(agent_rules::specs::Life::step_sends))]
pub fn step_sends(q: Request) -> Verb
    ensures { result ≡ step_sends q }
{
    match Phase::from(q.phase) {
        Phase::Free | Phase::Held => Verb::Nothing,
        Phase::Asking => Verb::Add(word_layout::step(ticket_counter(mode_of(q.mode)))),
        Phase::Waiting => Verb::Read,
        Phase::Owing => Verb::Add(word_layout::back(ticket_counter(mode_of(q.mode)))),
        Phase::Clearing => Verb::Swap(q.clearing, 0),
    }
}

// What a release of the request sends; Nothing where a release is refused.
#[tactic(auto, unfolding(agent_rules::specs::Life::release_sends))]
pub fn release_sends(q: Request) -> Verb
    ensures { result ≡ release_sends q }
{
    match Phase::from(q.phase) {
        Phase::Held => Verb::Add(word_layout::step(release_counter(mode_of(q.mode)))),
        _ => Verb::Nothing,
    }
}
