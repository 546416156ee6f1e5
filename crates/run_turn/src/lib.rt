// One record of a run played: the visit of its slot, its entry in the report, and how many verbs it sent. No table of slots is handled here.
// It relies on the contracts of `board_visit_any`, `board_gate`, `board_numbers` and `run_entry` alone.
#![tactic(auto)]

ghost use Rattle.std.specs.Prelude.{◌≡◌};
ghost use Rattle.board_call.specs.declared.Call.TheVariants.{Open};
ghost use Rattle.board_call.specs.declared.AnyCall.TheVariants.{Base};
ghost use Rattle.board_nodes.specs.Visit.{any_visit};
ghost use Rattle.run_turn.specs.Turns.{reported, turn_leaves};

use agent_request::Request;
use board_call::{AnyCall, Call};
use board_rules::{Found, Seen};

// What a turn leaves to whoever holds the table: the request that its slot gets, and the verbs sent.
#[derive(Clone, Copy)]
pub struct Turned {
    pub request: Request,
    pub verbs: usize,
}

// A call is played on a slot, and its entry is written at a place of the report; slice and place here and below, as in `put_of`.
pub fn turn(o: AnyCall, found: Found, words: &mut [u64], report: &mut [u8], at: usize) -> Turned
    ensures handed { result ≡ turn_leaves o (any_visit o found.slot found.shut found.request words.old) }
    ensures left { words.new ≡ (any_visit o found.slot found.shut found.request words.old).words }
    ensures told { report.new ≡ reported report.old at o (any_visit o found.slot found.shut found.request words.old) }
{
    let Seen { request, answer } = board_visit_any::any_visit(o, found, words);
    let c = board_gate::reported_as(o);
    run_entry::put(report, at, board_numbers::tell(c, answer));
    Turned {
        request,
        verbs: board_numbers::verbs_of_any(o, answer),
    }
}

// The same of an open by any node, which sends no verb and leaves the words: what its slot gets. Tried: with `turn` for opens too an open takes half as
// many instructions again (docs/PERFORMANCE.md).
pub fn open_turn(
    record: u64,
    mode: u64,
    found: Found,
    words: &[u64],
    report: &mut [u8],
    at: usize,
) -> Request
    ensures handed { result ≡ (any_visit (Base (Open «record» mode)) found.slot found.shut found.request words.now).request }
    ensures told { report.new ≡ reported report.old at (Base (Open «record» mode))
        (any_visit (Base (Open «record» mode)) found.slot found.shut found.request words.now) }
{
    let Seen { request, answer } = board_visit_any::any_open(record, mode, found, words);
    run_entry::put(
        report,
        at,
        board_numbers::tell(Call::Open(record, mode), answer),
    );
    request
}
