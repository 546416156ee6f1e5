// Any call as a visit of one slot: first the fence of the node that it looks at, then the call. It relies on the contracts of `board_gate`,
// `board_visit`, `board_visit_open`, `board_visit_care` and `board_records` alone.
#![tactic(auto)]

ghost use Rattle.std.specs.Prelude.{◌≡◌};
ghost use Rattle.board_call.specs.declared.Call.TheVariants.{Open};
ghost use Rattle.board_call.specs.declared.AnyCall.TheVariants.{Base};
ghost use Rattle.board_rules.specs.Sent.{handed};
ghost use Rattle.board_nodes.specs.Visit.{behind_gate, any_visit};

use board_call::AnyCall;
use board_rules::{Answer, Found, Refusal, Seen};

// Here and below call, slot and words are three: the call is what is played, the slot is what the holder of the table found, the words are lent.
// The visit behind the gate.
#[tactic(auto, using(board_rules::proofs::Words::open_words), unfolding(board_rules::specs::Visit::named_visit))]
fn behind_gate(o: AnyCall, found: Found, words: &mut [u64]) -> Seen
    ensures said { result ≡ handed (behind_gate o found.slot found.request words.old) }
    ensures left { words.new ≡ (behind_gate o found.slot found.request words.old).words }
{
    let Found { slot, request, .. } = found;
    match o {
        AnyCall::Base(c) => board_visit::visit(c, slot, request, words),
        AnyCall::OpenAs(record, mode, _) => {
            board_visit_open::open_visit(record, mode, slot, request, words)
        }
        AnyCall::Fence(_) => Seen {
            request,
            answer: Answer::Fenced,
        },
        AnyCall::Care(n) if 256 <= n => {
            board_records::refused(request, Refusal::SlotTooHigh.into())
        }
        AnyCall::Care(_) => board_visit_care::care_visit(request, words),
    }
}

// The visit of a slot by any call.
#[tactic(auto, using(board_rules::proofs::Given::never_0), unfolding(board_nodes::specs::Visit::any_visit))]
pub fn any_visit(o: AnyCall, found: Found, words: &mut [u64]) -> Seen
    ensures said { result ≡ handed (any_visit o found.slot found.shut found.request words.old) }
    ensures left { words.new ≡ (any_visit o found.slot found.shut found.request words.old).words }
{
    match board_gate::gate(o, found.shut, found.request, words) {
        Ok(()) => behind_gate(o, found, words),
        Err(why) => board_records::refused(found.request, why.into()),
    }
}

// The same of an open by any node, which leaves the words. Tried: with `any_visit` for opens too a run's open takes half as many instructions again
// (docs/PERFORMANCE.md).
#[tactic(auto, using(board_rules::proofs::Given::never_0), unfolding(board_nodes::specs::Visit::any_visit))]
pub fn any_open(record: u64, mode: u64, found: Found, words: &[u64]) -> Seen
    ensures { result ≡ handed (any_visit (Base (Open «record» mode)) found.slot found.shut found.request words.now) }
{
    match board_gate::open_gate(record, mode, found.shut, words) {
        Ok(()) => board_visit_open::open_visit(record, mode, found.slot, found.request, words),
        Err(why) => board_records::refused(found.request, why.into()),
    }
}
