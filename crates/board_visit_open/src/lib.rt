// An open as a visit of one slot. It relies on the contracts of `board_records` and `agent_request` alone.
#![tactic(auto)]

ghost use Rattle.std.specs.Prelude.{◌≡◌};
ghost use Rattle.board_rules.specs.Sent.{handed};
ghost use Rattle.board_rules.specs.Visit.{open_visit};

use agent_request::Request;
use board_rules::{Answer, Refusal, Seen};

// Record and mode, and no struct: `Open` and `OpenAs` carry them so, and both come here.
// The visit of slot i, whose request is q, by an open: what becomes of the request, and the answer. The words are only counted.
#[tactic(auto, using(board_rules::proofs::Sent::record_small), unfolding(board_rules::specs::Visit::open_visit))]
pub fn open_visit(record: u64, mode: u64, i: usize, q: Request, words: &[u64]) -> Seen
    ensures { result ≡ handed (open_visit «record» mode i q words.now) }
{
    if !board_records::is_record(record, words.len()) {
        return board_records::refused(q, Refusal::NoRecord.into());
    }
    if 1 < mode {
        return board_records::refused(q, Refusal::NoMode.into());
    }
    if agent_request::in_use(q) {
        return board_records::refused(q, Refusal::NoSlotIsFree.into());
    }
    Seen {
        request: agent_request::opened(record as u16, mode as u8),
        answer: Answer::Opened((i % 256) as u8),
    }
}
