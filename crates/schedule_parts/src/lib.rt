// A call taken apart into its kind and numbers. It relies on types alone.
#![tactic(auto)]

ghost use Rattle.std.specs.Prelude.{◌≡◌};
ghost use Rattle.schedule_kinds.specs.Kinds.{parts_of};

use board_call::{AnyCall, Call};
use schedule_kinds::Parts;

// The kind and the numbers of a call: a kind is a line. No From: it would stand in `schedule_kinds`, which computes none of its definitions
// (docs/DECISIONS.md, 1).
pub fn parts_of(c: AnyCall) -> Parts
    ensures { result ≡ parts_of c }
{
    let (kind, first, second, third) = match c {
        AnyCall::Base(Call::Open(record, mode)) => (1, record, mode, 0),
        AnyCall::Base(Call::Step(slot)) => (2, slot, 0, 0),
        AnyCall::Base(Call::Release(slot)) => (3, slot, 0, 0),
        AnyCall::Base(Call::Show(record)) => (4, record, 0, 0),
        AnyCall::OpenAs(record, mode, node) => (5, record, mode, node.into()),
        AnyCall::Fence(node) => (6, node.into(), 0, 0),
        AnyCall::Care(slot) => (7, slot, 0, 0),
    };
    Parts {
        kind,
        first,
        second,
        third,
    }
}
