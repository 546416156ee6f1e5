// A caretaker's turn on one request of a lost node: what it sends, and what the request becomes. It relies on the contracts of
// `agent_request`, `agent_sends` and `agent_takes` alone. Its own is only which of them a phase takes, and that an Asking request is freed.
#![tactic(auto)]

ghost use Rattle.std.specs.Prelude.{◌≡◌};
ghost use Rattle.agent_rules.specs.Care.{care_sends, care_takes};

use agent_request::{Phase, Request};
use agent_rules::{Answer, Taken, Verb};

// Two matches, and no table of functions: none may be handed out.
// What a care of the request sends; Nothing where the request is Asking, and where a care is refused.
#[tactic(auto, unfolding(agent_rules::specs::Care::care_sends))]
pub fn care_sends(q: Request) -> Verb
    ensures { result ≡ care_sends q }
{
    match Phase::from(q.phase) {
        Phase::Asking => Verb::Nothing,
        Phase::Held => agent_sends::release_sends(q),
        _ => agent_sends::step_sends(q),
    }
}

// What the request becomes when the result v of its care's verb arrives; where the request is Asking it is the same for every v. Request and result are
// two, as in `Care.antt`.
#[tactic(auto, unfolding(agent_rules::specs::Care::care_takes))]
pub fn care_takes(q: Request, v: u64) -> Taken
    ensures { result ≡ care_takes q v }
{
    match Phase::from(q.phase) {
        Phase::Asking => Taken {
            request: agent_request::free(),
            answer: Answer::FreedUnasked,
        },
        Phase::Held => agent_takes::release_takes(q, v),
        _ => agent_takes::step_takes(q, v),
    }
}
