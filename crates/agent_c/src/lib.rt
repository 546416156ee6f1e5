// The agent for a caller in C. An exported function loads the request, calls a function by value, stores and returns; `take` does so for the
// three that take a result. It relies on the contracts of `agent_sends`, `agent_takes`, `agent_care`, `agent_numbers`,
// `agent_request` and `word_layout` alone.
#![tactic(auto)]

ghost use Rattle.std.specs.Prelude.{◌≡◌};
ghost use Rattle.word_layout.specs.Word.{split_of};
ghost use Rattle.agent_rules.specs.Life.{step_sends, release_sends, step_takes, release_takes};
ghost use Rattle.agent_rules.specs.Care.{care_sends, care_takes};
ghost use Rattle.agent_rules.specs.declared.Taken.{Taken};
ghost use Rattle.agent_c_rules.specs.Boundary.{verb_of, told_of, asked_of};

use agent_c_rules::{CTold, CVerb};
use agent_request::Request;
use agent_rules::{Answer, Numbers, Taken, Verb};
use word_layout::Counters;

// A verb in numbers. No From, here and below: it would stand in `agent_c_rules`, which computes none of its definitions (docs/DECISIONS.md, 1).
fn verb_of(v: Verb) -> CVerb
    ensures { result ≡ verb_of v }
{
    let (kind, first, second) = match v {
        Verb::Nothing => (0, 0, 0),
        Verb::Add(k) => (1, k, 0),
        Verb::Read => (2, 0, 0),
        Verb::Swap(old, new) => (3, old, new),
    };
    CVerb {
        kind,
        first,
        second,
    }
}

// An answer in numbers.
fn told_of(a: Answer) -> CTold
    ensures { result ≡ told_of a }
{
    let Numbers {
        number,
        outcome,
        value,
    } = agent_numbers::numbers_of(a);
    CTold {
        number,
        outcome,
        ahead: value,
    }
}

// The result of a verb arrives: the request becomes what the agent makes of it, and what it is told comes back.
fn take<F: FnOnce(Request, u64) -> Taken>(q: &mut Request, res: u64, takes: F) -> CTold
    requires { F.IsAlwaysCallable takes }
    ensures { (t : Taken) × F.post takes q.old res t × (result ≡ told_of t.answer) × (q.new ≡ t.request) }
{
    let Taken { request, answer } = takes(*q, res);
    *q = request;
    told_of(answer)
}

// The request is to ask for a record: 0, and it asks; 3 where the mode is neither 0 nor 1, 5 where the request is in use, and it stays.
// C reads numbers; Refusal, which has them by name, is of the board's floor.
#[unsafe(no_mangle)]
pub extern "C" fn brancove_ask(q: &mut Request, record: u16, mode: u8) -> u8
    ensures { (result ≡ (asked_of q.old «record» mode).number) × (q.new ≡ (asked_of q.old «record» mode).request) }
{
    if 1 < mode {
        3
    } else if agent_request::in_use(*q) {
        5
    } else {
        *q = agent_request::opened(record, mode);
        0
    }
}

// A name for each: C calls them by name.

// What a step of the request sends; the request stays.
#[unsafe(no_mangle)]
pub extern "C" fn brancove_step_sends(q: &mut Request) -> CVerb
    ensures { (result ≡ verb_of (step_sends q.old)) × (q.new ≡ q.old) }
{
    verb_of(agent_sends::step_sends(*q))
}

// What a release of the request sends; the request stays.
#[unsafe(no_mangle)]
pub extern "C" fn brancove_release_sends(q: &mut Request) -> CVerb
    ensures { (result ≡ verb_of (release_sends q.old)) × (q.new ≡ q.old) }
{
    verb_of(agent_sends::release_sends(*q))
}

// What a care of the request sends; the request stays.
#[unsafe(no_mangle)]
pub extern "C" fn brancove_care_sends(q: &mut Request) -> CVerb
    ensures { (result ≡ verb_of (care_sends q.old)) × (q.new ≡ q.old) }
{
    verb_of(agent_care::care_sends(*q))
}

// Here and below request and result are two: C hands them over so, and the definitions have them side by side (`Life.antt`).
// The result of a step's verb arrives: the request becomes what the agent makes of it, and what it is told comes back.
#[unsafe(no_mangle)]
pub extern "C" fn brancove_step_takes(q: &mut Request, res: u64) -> CTold
    ensures { (result ≡ told_of (step_takes q.old res).answer) × (q.new ≡ (step_takes q.old res).request) }
{
    take(q, res, agent_takes::step_takes)
}

// The result of a release's verb arrives: the request becomes what the agent makes of it, and what it is told comes back.
#[unsafe(no_mangle)]
pub extern "C" fn brancove_release_takes(q: &mut Request, res: u64) -> CTold
    ensures { (result ≡ told_of (release_takes q.old res).answer) × (q.new ≡ (release_takes q.old res).request) }
{
    take(q, res, agent_takes::release_takes)
}

// The result of a care's verb arrives: the request becomes what the agent makes of it, and what it is told comes back.
#[unsafe(no_mangle)]
pub extern "C" fn brancove_care_takes(q: &mut Request, res: u64) -> CTold
    ensures { (result ≡ told_of (care_takes q.old res).answer) × (q.new ≡ (care_takes q.old res).request) }
{
    take(q, res, agent_care::care_takes)
}

// The four counters of a word.
#[unsafe(no_mangle)]
pub extern "C" fn brancove_split(word: u64) -> Counters
    ensures { result ≡ split_of word }
{
    Counters::from(word)
}
