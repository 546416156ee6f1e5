// A verb sent for one request and its result taken: what becomes of the request and of the lent words, and the answer. No table of slots is handled
// here. It relies on the contracts of `word_verbs`, `agent_sends`, `agent_takes`, `agent_request` and `board_records` alone.
#![tactic(auto)]

ghost use Rattle.std.specs.Prelude.{◌≡◌, ℕ, get_or, set, OnOk, OnErr, IfOk};
ghost use Rattle.agent_rules.specs.Life.{left_by, step_sends, release_sends, step_takes, release_takes};
ghost use Rattle.agent_rules.specs.declared.Taken.{Taken};
ghost use Rattle.board_rules.specs.Records.{number_given, refusal_of};
ghost use Rattle.board_rules.specs.Sent.{handed, sent_visit};

use agent_request::Request;
use agent_rules::{Taken, Verb};
use board_rules::{Answer, Refusal, Seen};

// Sends a verb to a word; the word as it was comes back. Nothing leaves the word alone.
fn send(word: &mut u64, v: Verb) -> u64
    ensures returned { result ≡ word.old }
    ensures left { word.new ≡ left_by v word.old }
{
    match v {
        Verb::Nothing => *word,
        Verb::Add(k) => word_verbs::add(word, k),
        Verb::Read => word_verbs::read(word),
        Verb::Swap(old, new) => word_verbs::swap(word, old, new),
    }
}

// Here and below request and words are two: the request is handed over and the words are lent, as in `visit_of`.
// Whether a verb may go out for a request.
#[tactic(auto, unfolding(board_rules::specs::Records::refusal_of))]
fn may_go_out(q: Request, v: Verb, words: &[u64]) -> Result<(), Refusal>
    ensures { number_given result ≡ refusal_of q v words.now }
{
    if !agent_request::in_use(q) {
        return Err(Refusal::SlotIsFree);
    }
    if v == Verb::Nothing {
        return Err(Refusal::WrongPhase);
    }
    if !board_records::is_record(q.record as u64, words.len()) {
        return Err(Refusal::NoRecord);
    }
    Ok(())
}

// Sends a verb to the request's word, if it may go out; the word as it was comes back.
#[tactic(auto, using(board_rules::proofs::Sent::inside))]
fn go_out(q: Request, v: Verb, words: &mut [u64]) -> Result<u64, Refusal>
    ensures number { number_given result ≡ refusal_of q v words.old }
    ensures kept { OnErr result (words.new ≡ words.old) }
    ensures value { IfOk result (λ value. value ≡ get_or words.old q.«record» 0) }
    ensures left { OnOk result (words.new ≡ set words.old q.«record» (left_by v (get_or words.old q.«record» 0))) }
{
    may_go_out(q, v, words)?;
    Ok(send(&mut words[q.record as usize], v))
}

// A verb sent for a request, and its result taken by `take`, which computes `takes`.
#[tactic(auto, using(board_rules::proofs::Given::never_0), unfolding(board_rules::specs::Sent::sent_visit))]
fn sent_visit<T: FnOnce(u64) -> Taken>(q: Request, v: Verb, take: T, words: &mut [u64]) -> Seen
    requires { T.IsAlwaysCallable take }
    ensures said { (takes : ℕ → Taken) → ((value : ℕ) (t : Taken) → T.post take value t → t ≡ takes value) →
        result ≡ handed (sent_visit q v takes words.old) }
    ensures left { (takes : ℕ → Taken) → words.new ≡ (sent_visit q v takes words.old).words }
{
    match go_out(q, v, words) {
        Ok(value) => {
            let Taken { request, answer } = take(value);
            Seen {
                request,
                answer: Answer::Told(answer),
            }
        }
        Err(why) => board_records::refused(q, why.into()),
    }
}

// A step: the verb of its phase goes out, and what came back is taken.
pub fn step_visit(q: Request, words: &mut [u64]) -> Seen
    ensures said { result ≡ handed (sent_visit q (step_sends q) (step_takes q) words.old) }
    ensures left { words.new ≡ (sent_visit q (step_sends q) (step_takes q) words.old).words }
{
    sent_visit(
        q,
        agent_sends::step_sends(q),
        |value| agent_takes::step_takes(q, value),
        words,
    )
}

// A release, in the same way.
pub fn release_visit(q: Request, words: &mut [u64]) -> Seen
    ensures said { result ≡ handed (sent_visit q (release_sends q) (release_takes q) words.old) }
    ensures left { words.new ≡ (sent_visit q (release_sends q) (release_takes q) words.old).words }
{
    sent_visit(
        q,
        agent_sends::release_sends(q),
        |value| agent_takes::release_takes(q, value),
        words,
    )
}
