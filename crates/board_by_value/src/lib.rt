// The board by value: a table of 256 request slots with the node of each, the fences, and lent lock words. It plays agents and memory in any order.
// It relies on the contracts of `board_visit_aim`, `board_visit_any`, `board_gate` and `board_map_kept` alone.
#![tactic(auto)]

ghost use Rattle.std.specs.Prelude.{◌<◌};
ghost use Rattle.board_call.specs.declared.Call.TheVariants.{Open, Step, Release};
ghost use Rattle.board_call.specs.declared.AnyCall.TheVariants.{Base, OpenAs, Fence, Care};
ghost use Rattle.board_nodes.specs.Site.{played_at};
ghost use Rattle.board_nodes.specs.Leaves.{Leaves, lent_to};
ghost use Rattle.board_nodes.specs.Visit.{visited_at};

use board_call::{AnyCall, Call};
use board_rules::{Found, Played, Seen};
use board_slots::{Board, Map};

// The visit of slot i by a call. It and `played` are inlined, so that a call copies the table less often and takes less of the stack.
#[inline(always)]
fn placed(mut b: Board, words: &mut [u64], o: AnyCall, i: usize) -> Played
    requires { i < 256 }
    ensures { Leaves (visited_at o (lent_to b words.old) i) result words.new }
{
    let node = b.nodes[i];
    let g = board_gate::watched_node(o, node) as usize;
    let found = Found {
        slot: i,
        request: b.slots[i],
        shut: b.fenced[g],
    };
    let Seen { request, answer } = board_visit_any::any_visit(o, found, words);
    b.slots[i] = request;
    b.nodes[i] = board_gate::kept_node(o, found.request, request, node);
    b.fenced[g] = board_gate::fence_after(o, found.shut);
    Played { board: b, answer }
}

// Plays a call as the visit of the slot that it aims at. Only an open looks at the map, so no other call has it made.
#[inline(always)]
#[tactic(auto, using(board_rules::proofs::Visits::aim_small))]
fn played(b: Board, words: &mut [u64], o: AnyCall) -> Played
    ensures { Leaves (played_at o (lent_to b words.old)) result words.new }
{
    let c = board_gate::reported_as(o);
    let map = match c {
        Call::Open(_, _) => board_map_kept::map_of(b),
        _ => Map { parts: [0; 4] },
    };
    placed(b, words, o, board_visit_aim::aim(c, map))
}

// Here and below board and words are two: the caller lends the words and hands over the board.
// Takes the lowest free slot, for node 0, for a request that is to ask.
pub fn open(b: Board, words: &mut [u64], record: u64, mode: u64) -> Played
    ensures { Leaves (played_at (Base (Open «record» mode)) (lent_to b words.old)) result words.new }
{
    played(b, words, AnyCall::Base(Call::Open(record, mode)))
}

// The same for any node.
pub fn open_as(b: Board, words: &mut [u64], record: u64, mode: u64, node: u8) -> Played
    ensures { Leaves (played_at (OpenAs «record» mode node) (lent_to b words.old)) result words.new }
{
    played(b, words, AnyCall::OpenAs(record, mode, node))
}

// Words and slot side by side: a slot is what the call names.
// Sends the phase's verb of a slot and takes its result.
pub fn step(b: Board, words: &mut [u64], slot: u64) -> Played
    ensures { Leaves (played_at (Base (Step slot)) (lent_to b words.old)) result words.new }
{
    played(b, words, AnyCall::Base(Call::Step(slot)))
}

// Sends the release verb of a slot and takes its result.
pub fn release(b: Board, words: &mut [u64], slot: u64) -> Played
    ensures { Leaves (played_at (Base (Release slot)) (lent_to b words.old)) result words.new }
{
    played(b, words, AnyCall::Base(Call::Release(slot)))
}

// Fences a node: its slots are left to a caretaker, and it opens none.
pub fn fence(b: Board, words: &mut [u64], node: u8) -> Played
    ensures { Leaves (played_at (Fence node) (lent_to b words.old)) result words.new }
{
    played(b, words, AnyCall::Fence(node))
}

// Cares for a slot of a fenced node: frees a request that asks, releases one that holds, and steps any other.
pub fn care(b: Board, words: &mut [u64], slot: u64) -> Played
    ensures { Leaves (played_at (Care slot) (lent_to b words.old)) result words.new }
{
    played(b, words, AnyCall::Care(slot))
}
