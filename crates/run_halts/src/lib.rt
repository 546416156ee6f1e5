// What stops a run before a record, and what it ends with where no record stands. It relies on types alone.
#![tactic(auto)]

ghost use Rattle.std.specs.Prelude.{◌≡◌, ltb};
ghost use Rattle.std.specs.Option.{option_map};
ghost use Rattle.common.specs.Choice.{but};
ghost use Rattle.run_rules.specs.Endings.{ending_number};
ghost use Rattle.run_rules.specs.Halts.{is_end, halted_of, leaves_of};

use run_rules::Ending;
use schedule_bytes::Next;

// What stops a run before what stands at its place: the allowance, and then the report's room; at the end of the schedule neither does.
// An `if` for each test: no longer than a `match` with guards, and a step of a run takes a tenth fewer instructions.
pub fn halted(n: Next, spent: bool, room: usize) -> Option<Ending>
    ensures { option_map ending_number result ≡ but 0 (halted_of (is_end n) spent (ltb room 12)) }
{
    if matches!(n, Next::End) {
        None
    } else if spent {
        Some(Ending::Spent)
    } else if room < 12 {
        Some(Ending::NoRoom)
    } else {
        None
    }
}

// What a run ends with where no record stands.
// No From: it would stand in `run_rules`, which computes no rule (docs/DECISIONS.md, 1).
pub fn left_by(n: Next) -> Ending
    ensures { ending_number result ≡ leaves_of n }
{
    match n {
        Next::Record(_, _) | Next::End => Ending::Complete,
        Next::Unknown => Ending::Unknown,
        Next::Cut => Ending::Cut,
    }
}
