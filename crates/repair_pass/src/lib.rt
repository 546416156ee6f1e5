// One pass of the repair: a care of every slot in use of a fenced node, lowest first, each told in 3 bytes of a lent log. The board is in one local, so
// that no care copies the table. It relies on the contracts of `board_visit_care`, `board_gate`, `board_numbers` and `agent_request` alone.
#![tactic(auto)]

ghost use Rattle.std.specs.Prelude.{◌≡◌, ◌&&◌};
ghost use Rattle.agent_request.specs.Request.{in_use};
ghost use Rattle.repair_rules.specs.Repair.{brings_on};
ghost use Rattle.repair_rules.specs.Log.{care_logged, place_after};
ghost use Rattle.repair_pass.specs.Passes.{PassLeaves};

use agent_request::Request;
use board_call::{AnyCall, Call};
use board_rules::Seen;
use board_slots::Board;

// A board after a pass, how many cares it made, and whether one of them brought something on.
// No Result: the board and the cares hold either way.
#[derive(Clone, Copy)]
pub struct PassMade {
    pub board: Board,
    pub cares: usize,
    pub progress: bool,
}

// Whether a slot is cared for, q being its request and `shut` whether its node is fenced.
fn is_lost(q: Request, shut: bool) -> bool
    ensures { result ≡ (in_use q && shut) }
{
    agent_request::in_use(q) && shut
}

// Whether a care with this outcome brings something on: not a refused one, 0, nor one told waiting, 3, or not yet clear, 9.
// By its number: a pass's log has outcomes as bytes.
fn brings_on(outcome: u8) -> bool
    ensures { result ≡ brings_on (record { slot = 0; phase = 0; outcome = outcome }) }
{
    !matches!(outcome, 0 | 3 | 9)
}

// Writes a care at a place of the log and answers the place behind it; where it does not fit nothing is written, and the place stays.
// As `run_entry::put` of the run's floor, with 3 bytes and the place behind them: alike are one test and one copy, and one function for both, public and in
// a crate below both floors, would be no shorter.
#[tactic(auto, using(crate::proofs::Stores::stays, crate::proofs::Stores::moves, crate::proofs::Stores::misses, crate::proofs::Stores::stored))]
fn put_care(log: &mut [u8], at: usize, slot: u8, phase: u8, outcome: u8) -> usize
    ensures after { result ≡ place_after log.old at }
    ensures written { log.new ≡ care_logged log.old at (record { slot = slot; phase = phase; outcome = outcome }) }
{
    if at > log.len() || log.len() - at < 3 {
        return at;
    }
    log[at..at + 3].copy_from_slice(&[slot, phase, outcome]);
    at + 3
}

// One pass over all slots. Its cares are written from a place of the log on, up to the first that does not fit; all are made and counted.
// By a place: the passes of a repair write one behind the other.
pub fn pass(mut b: Board, words: &mut [u64], log: &mut [u8], at: usize) -> PassMade
    ensures { PassLeaves b words.old log.old at result words.new log.new }
{
    let mut place = at;
    let mut cares: usize = 0;
    let mut progress = false;
    for n in 0..256usize {
        let q = b.slots[n];
        let node = b.nodes[n];
        if !is_lost(q, b.fenced[node as usize]) {
            continue;
        }
        let Seen { request, answer } = board_visit_care::care_visit(q, words);
        let outcome = board_numbers::tell(Call::Step(n as u64), answer).outcome;
        b.slots[n] = request;
        b.nodes[n] = board_gate::kept_node(AnyCall::Care(n as u64), q, request, node);
        place = put_care(log, place, n as u8, q.phase, outcome);
        progress |= brings_on(outcome);
        cares += 1;
    }
    PassMade {
        board: b,
        cares,
        progress,
    }
}
