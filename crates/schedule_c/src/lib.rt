// Schedules for a caller in C: what stands at a place, and a record written at one, in plain numbers. It relies on the contracts of
// `schedule_bytes`, `schedule_parts` and `schedule_writer` alone.
#![tactic(auto)]

ghost use Rattle.std.specs.Prelude.{◌≡◌};
ghost use Rattle.schedule_kinds.specs.Kinds.{parts};
ghost use Rattle.schedule_writing.specs.Writing.{writing_of};
ghost use Rattle.schedule_writing.specs.Boundary.{placed_of, standing_at};

use schedule_bytes::Next;
use schedule_kinds::Parts;
use schedule_writing::{Placed, Standing};

// Bytes and place are two here and below: C hands them over so.
// What stands at a place of a schedule, for any bytes and any place: the kind and the numbers of the record, and the place behind it.
#[unsafe(no_mangle)]
pub extern "C" fn brancove_schedule_read(schedule: &[u8], place: usize) -> Standing
    ensures { result ≡ standing_at schedule.now place }
{
    let nothing = Standing {
        number: 0,
        kind: 0,
        first: 0,
        second: 0,
        third: 0,
        next: place,
    };
    match schedule_bytes::next_at(schedule, place) {
        Next::Record(call, next) => {
            let Parts {
                kind,
                first,
                second,
                third,
            } = schedule_parts::parts_of(call);
            Standing {
                number: 0,
                kind,
                first,
                second,
                third,
                next,
            }
        }
        Next::End => nothing,
        // 7 and 8 of rule 5.1, as C reads them; Ending, which names them, is of a floor above.
        Next::Unknown => Standing {
            number: 8,
            ..nothing
        },
        Next::Cut => Standing {
            number: 7,
            ..nothing
        },
    }
}

// Writes a kind with its numbers at a place of the buffer, and gives the next free place: 8 where there is no such kind, 18 where a number is
// too large for its field, 12 where there is no room, and then buffer and place are as they were.
#[unsafe(no_mangle)]
#[tactic(auto, using(schedule_kinds::proofs::EachKind::no_body), unfolding(schedule_writing::specs::Writing::writing_of))]
pub extern "C" fn brancove_schedule_write(
    buffer: &mut [u8],
    place: usize,
    kind: u64,
    first: u64,
    second: u64,
    third: u64,
) -> Placed
    ensures { (result ≡ placed_of (writing_of buffer.old place (parts kind first second third))) × (buffer.new ≡ (writing_of buffer.old place (parts kind first second third)).bytes) }
{
    let Ok(kind) = u8::try_from(kind) else {
        // no byte holds this kind; 8 as C reads it: the writer's `Refused`, which names it, is private
        return Placed { number: 8, place };
    };
    let p = Parts {
        kind,
        first,
        second,
        third,
    };
    schedule_writer::put(buffer, place, p)
}
