// What is particular to nodes in a call: as which call of the base it is reported, the node whose fence it looks at, whether that fence refuses
// it, and what node and fence are afterwards. It relies on the contracts of `agent_request` and `board_records` alone.
#![tactic(auto)]

ghost use Rattle.std.specs.Prelude.{◌≡◌};
ghost use Rattle.common.specs.Choice.{when◌then◌else◌};
ghost use Rattle.board_rules.specs.Records.{refusal_number, number_given};
ghost use Rattle.board_nodes.specs.Site.{kept_node, opens_shut, used_shut};
ghost use Rattle.board_nodes.specs.Answers.{reported_as};
ghost use Rattle.board_nodes.specs.Visit.{watched_node, opening_node, fence_after, gate_of};

use agent_request::Request;
use board_call::{AnyCall, Call};
use board_rules::Refusal;

// As which call of the base a call is reported.
pub fn reported_as(o: AnyCall) -> Call
    ensures { result ≡ reported_as o }
{
    match o {
        AnyCall::Base(c) => c,
        AnyCall::OpenAs(record, mode, _) => Call::Open(record, mode),
        AnyCall::Fence(_) => Call::Show(0),
        AnyCall::Care(slot) => Call::Step(slot),
    }
}

// The node whose fence a call looks at or sets, n being the node of the slot that it visits.
pub fn watched_node(o: AnyCall, n: u8) -> u8
    ensures { result ≡ watched_node o n }
{
    match o {
        AnyCall::Base(Call::Open(_, _)) => 0,
        AnyCall::OpenAs(_, _, node) | AnyCall::Fence(node) => node,
        AnyCall::Base(_) | AnyCall::Care(_) => n,
    }
}

// The node for which a call opens.
fn opening_node(o: AnyCall) -> u8
    ensures { result ≡ opening_node o }
{
    match o {
        AnyCall::OpenAs(_, _, node) => node,
        AnyCall::Base(_) | AnyCall::Fence(_) | AnyCall::Care(_) => 0,
    }
}

// The node of a slot after a call: that of the call where it was opened, 0 where it was freed, else the one that it had.
pub fn kept_node(o: AnyCall, before: Request, after: Request, n: u8) -> u8
    ensures { result ≡ kept_node (opening_node o) before after n }
{
    match (agent_request::in_use(before), agent_request::in_use(after)) {
        (false, true) => opening_node(o),
        (true, false) => 0,
        _ => n,
    }
}

// Whether the fence that a call looks at is there afterwards.
pub fn fence_after(o: AnyCall, shut: bool) -> bool
    ensures { result ≡ fence_after o shut }
{
    shut || matches!(o, AnyCall::Fence(_))
}

// A good open by a node that is shut out.
fn opens_shut(record: u64, mode: u64, shut: bool, words: &[u64]) -> bool
    ensures { result ≡ opens_shut «record» mode shut words.now }
{
    shut && mode <= 1 && board_records::is_record(record, words.len())
}

// A slot of the board that is in use, and shut.
fn used_shut(i: u64, q: Request, shut: bool) -> bool
    ensures { result ≡ used_shut i q shut }
{
    shut && i < 256 && agent_request::in_use(q)
}

// Refuses for a reason, or lets through.
fn pass_unless(refuses: bool, why: Refusal) -> Result<(), Refusal>
    ensures { number_given result ≡ (when refuses then refusal_number why else 0) }
{
    if refuses { Err(why) } else { Ok(()) }
}

// Whether a fence lets an open through.
pub fn open_gate(record: u64, mode: u64, shut: bool, words: &[u64]) -> Result<(), Refusal>
    ensures { number_given result ≡ (when opens_shut «record» mode shut words.now then 14 else 0) }
{
    pass_unless(opens_shut(record, mode, shut, words), Refusal::NodeIsFenced)
}

// Whether a fence lets a call through on a slot whose request is q.
pub fn gate(o: AnyCall, shut: bool, q: Request, words: &[u64]) -> Result<(), Refusal>
    ensures { number_given result ≡ gate_of o shut q words.now }
{
    match o {
        AnyCall::Base(Call::Open(record, mode)) | AnyCall::OpenAs(record, mode, _) => {
            open_gate(record, mode, shut, words)
        }
        AnyCall::Base(Call::Step(slot) | Call::Release(slot)) => {
            pass_unless(used_shut(slot, q, shut), Refusal::NodeOfSlotIsFenced)
        }
        AnyCall::Care(slot) => pass_unless(
            used_shut(slot, q, !shut),
            Refusal::NodeOfSlotIsNotFenced,
        ),
        AnyCall::Base(Call::Show(_)) | AnyCall::Fence(_) => Ok(()),
    }
}
