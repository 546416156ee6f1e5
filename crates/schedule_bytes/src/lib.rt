// Schedules in bytes. What stands at a place of a slice: a record with the next place, the end, an unknown kind, or a cut body.
// It relies on nothing but the type of a call, and knows nothing of boards.
#![tactic(auto)]

ghost use Rattle.std.specs.Prelude.{◌≡◌, ◌+◌, ◌*◌, ◌≤◌, length};
ghost use Rattle.common.specs.Choice.{but};
ghost use Rattle.schedule_kinds.specs.Kinds.{body_of};
ghost use Rattle.schedule_bytes.specs.Schedule.{byte_at, call_at, next_of};

use board_call::{AnyCall, Call};

// No Result: the end is no error, and `let .. else` takes a record out as plainly.
#[derive(Clone, Copy, PartialEq, Eq, Debug)]
pub enum Next {
    // the call, and the place after its record
    Record(AnyCall, usize),
    End,
    Unknown,
    Cut,
}

// How long the body of a kind is; none for an unknown kind.
#[tactic(auto, unfolding(schedule_kinds::specs::Kinds::body_of, schedule_kinds::specs::Kinds::widths_of))]
pub fn body(kind: u8) -> Option<usize>
    ensures { result ≡ but 0 (body_of kind) }
{
    match kind {
        1 => Some(3),
        2 | 3 | 6 | 7 => Some(1),
        4 => Some(2),
        5 => Some(4),
        _ => None,
    }
}

// The first two bytes, low first.
fn pair(fields: &[u8]) -> u64
    requires { 2 ≤ length fields.now }
    ensures { result ≡ byte_at fields.now 0 + byte_at fields.now 1 * 256 }
{
    u64::from(u16::from_le_bytes([fields[0], fields[1]]))
}

// The call of a kind whose body stands in front, and is all there.
#[tactic(auto, using(crate::proofs::Fields::one, crate::proofs::Fields::two, crate::proofs::Fields::open_as, crate::proofs::Fields::seventh), unfolding(schedule_kinds::specs::Kinds::body_of, schedule_kinds::specs::Kinds::widths_of, crate::specs::Schedule::call_at, schedule_kinds::specs::Kinds::call_of, crate::specs::Schedule::numbers_at))]
fn call_at(kind: u8, fields: &[u8]) -> AnyCall
    requires inside { body_of kind ≤ length fields.now }
    requires known { body_of kind ≡ 0 → ⊥ }
    ensures { result ≡ call_at kind fields.now 0 }
{
    match kind {
        1 => AnyCall::Base(Call::Open(pair(fields), fields[2].into())),
        2 => AnyCall::Base(Call::Step(fields[0].into())),
        3 => AnyCall::Base(Call::Release(fields[0].into())),
        4 => AnyCall::Base(Call::Show(pair(fields))),
        5 => AnyCall::OpenAs(pair(fields), fields[2].into(), fields[3]),
        6 => AnyCall::Fence(fields[0]),
        _ => AnyCall::Care(fields[0].into()),
    }
}

// What stands at a place, for any bytes and any place.
// Slice and place: `Reader` is the struct of both, and a run keeps its place itself (docs/DECISIONS.md, 32).
#[tactic(auto, using(crate::proofs::Fields::call_behind), unfolding(crate::specs::Schedule::next_of))]
pub fn next_at(s: &[u8], at: usize) -> Next
    ensures { result ≡ next_of s.now at }
{
    let Some(&kind) = s.get(at) else {
        return Next::End;
    };
    let Some(n) = body(kind) else {
        return Next::Unknown;
    };
    let fields = &s[at + 1..];
    if fields.len() < n {
        return Next::Cut;
    }
    Next::Record(call_at(kind, fields), at + 1 + n)
}
