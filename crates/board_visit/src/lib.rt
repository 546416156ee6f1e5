// One call as a visit of one slot: what becomes of its request and of the lent words. No table of slots is handled here, so that whoever holds one
// copies none of it for a call. It relies on the contracts of `board_visit_open`, `board_visit_verb` and `board_records` alone.
#![tactic(auto)]

ghost use Rattle.std.specs.Prelude.{◌≡◌};
ghost use Rattle.board_rules.specs.Sent.{handed};
ghost use Rattle.board_rules.specs.Visit.{visit_of, show_visit};

use agent_request::Request;
use board_call::Call;
use board_rules::{Answer, Refusal, Seen};

// The visit of a show. As `board_views::show`: a call of it would have a visit rely on that crate, and by it on the map's, for one test.
#[tactic(auto, using(board_rules::proofs::Sent::record_small, board_rules::proofs::Sent::record_lent), unfolding(board_rules::specs::Visit::show_visit, board_rules::specs::Board::shown_of))]
fn show_visit(record: u64, q: Request, words: &[u64]) -> Seen
    ensures { result ≡ handed (show_visit «record» q words.now) }
{
    if board_records::is_record(record, words.len()) {
        Seen {
            request: q,
            answer: Answer::Shown(words[record as usize]),
        }
    } else {
        board_records::refused(q, Refusal::NoRecord.into())
    }
}

// The visit of slot i, whose request is q: what becomes of the request, of the words, and the answer.
#[tactic(auto, using(board_rules::proofs::Words::open_words, board_rules::proofs::Words::show_words), unfolding(board_rules::specs::Visit::named_visit))]
pub fn visit(c: Call, i: usize, q: Request, words: &mut [u64]) -> Seen
    ensures said { result ≡ handed (visit_of c i q words.old) }
    ensures left { words.new ≡ (visit_of c i q words.old).words }
{
    match c {
        Call::Open(record, mode) => board_visit_open::open_visit(record, mode, i, q, words),
        Call::Step(n) | Call::Release(n) if 256 <= n => {
            board_records::refused(q, Refusal::SlotTooHigh.into())
        }
        Call::Step(_) => board_visit_verb::step_visit(q, words),
        Call::Release(_) => board_visit_verb::release_visit(q, words),
        Call::Show(record) => show_visit(record, q, words),
    }
}
