// The schedule writer: a call goes in, its record is written at a place of a lent buffer, and the next free place comes back. `put` writes a
// kind with its numbers, field by field as the kind's widths say; `write` writes a call. It relies on the contracts of `schedule_bytes` and
// `schedule_parts`, and knows nothing of boards: a call that the board would refuse is written like any other.
#![tactic(auto)]

ghost use Rattle.std.specs.Prelude.{◌≡◌, ◌≤◌, ◌^◌, leb, length};
ghost use Rattle.schedule_kinds.specs.Kinds.{widths_of, numbers_of};
ghost use Rattle.schedule_writing.specs.Writing.{bytes_of, record_of, length_of, too_large, writing_of, written_of, buffer_of};
ghost use Rattle.schedule_writing.specs.Boundary.{placed_of};
ghost use Rattle.schedule_writer.specs.Answers.{refused_number, told_at, not_written_of};

use board_call::AnyCall;
use schedule_kinds::Parts;
use schedule_writing::{NotWritten, Placed};

// Why a record was not written, with its number in rule 5.1.
#[derive(Clone, Copy, PartialEq, Eq, Debug)]
enum Refused {
    NoKind = 8,
    TooLarge = 18,
    NoRoom = 12,
}

// The number of a refusal.
impl From<Refused> for u8 {
    ghost from_gives = { λ refused number. number ≡ refused_number refused };

    fn from(refused: Refused) -> u8 {
        refused as u8
    }
}

// A call's kind is always known.
impl From<Refused> for NotWritten {
    ghost from_gives = { λ refused told. told ≡ not_written_of refused };

    fn from(refused: Refused) -> NotWritten {
        match refused {
            Refused::TooLarge => NotWritten::TooLarge,
            Refused::NoKind | Refused::NoRoom => NotWritten::NoRoom,
        }
    }
}

// How many bytes each of a kind's three fields takes, 0 where there is none: a kind is a line.
#[tactic(auto, unfolding(schedule_kinds::specs::Kinds::widths_of))]
fn widths_of(kind: u8) -> [usize; 3]
    ensures { result ≡ widths_of kind }
{
    match kind {
        1 => [2, 1, 0],
        2 | 3 | 6 | 7 => [1, 0, 0],
        4 => [2, 0, 0],
        5 => [2, 1, 1],
        _ => [0, 0, 0],
    }
}

// Whether a number is too large for so many bytes: it reaches the least that they do not hold, which for 8 bytes no u64 does.
fn exceeds(n: u64, width: usize) -> bool
    requires { width ≤ 8 }
    ensures { result ≡ leb (256 ^ width) n }
{
    256u64
        .checked_pow(width as u32)
        .is_some_and(|least| least <= n)
}

// Whether some number is too large for its field.
fn too_large(p: Parts) -> bool
    ensures { result ≡ too_large (widths_of p.kind) (numbers_of p) }
{
    let [first, second, third] = widths_of(p.kind);
    exceeds(p.first, first) || exceeds(p.second, second) || exceeds(p.third, third)
}

// Stores a number in a field, low byte first. The archive for C is to need nothing of the C library: a copy of a length that only the run knows is a
// call of its `memcpy`, and where the compiler sees by a caller that only zeros are left this loop may become one of `memset`. So each caller gives
// a field whose length is one of a few constants, and the loop is unrolled; `nm -u` of the archive says whether it still is.
fn store(field: &mut [u8], n: u64)
    ensures { field.new ≡ bytes_of (length field.old) n }
{
    let mut rest = n;
    for byte in field.iter_mut() {
        *byte = (rest % 256) as u8;
        rest /= 256;
    }
}

// Stores a record where there is just room for it: its kind, then its numbers. The third field too is as long as its width says: what is left of the
// record is as long, and the compiler knows no bound of it.
fn store_record(bytes: &mut [u8], p: Parts)
    requires { length bytes.old ≡ length_of p }
    ensures { bytes.new ≡ record_of p }
{
    let [first, second, third] = widths_of(p.kind);
    let (kind, fields) = bytes.split_at_mut(1);
    let (one, fields) = fields.split_at_mut(first);
    let (two, fields) = fields.split_at_mut(second);
    let (three, _) = fields.split_at_mut(third);
    kind[0] = p.kind;
    store(one, p.first);
    store(two, p.second);
    store(three, p.third);
}

// Writes a kind with its numbers at a place: the next free place, or why it was refused, and then the buffer is as it was.
// Buffer and place, here and below, as a caller in C gives them and gets the next place.
#[tactic(auto, unfolding(schedule_writing::specs::Writing::writing_of, schedule_writing::specs::Writing::length_of))]
fn lay(buffer: &mut [u8], at: usize, p: Parts) -> Result<usize, Refused>
    ensures told { told_at at result ≡ placed_of (writing_of buffer.old at p) }
    ensures written { buffer.new ≡ (writing_of buffer.old at p).bytes }
{
    let body = schedule_bytes::body(p.kind).ok_or(Refused::NoKind)?;
    if too_large(p) {
        return Err(Refused::TooLarge);
    }
    let room = buffer.len().checked_sub(at).ok_or(Refused::NoRoom)?;
    if room <= body {
        return Err(Refused::NoRoom);
    }
    let end = at + 1 + body;
    store_record(&mut buffer[at..end], p);
    Ok(end)
}

// Writes a kind with its numbers at a place: 8 where there is no such kind, 18 where a number does not fit its field, 12 where the record
// does not fit the buffer. A refusal leaves buffer and place.
pub fn put(buffer: &mut [u8], at: usize, p: Parts) -> Placed
    ensures { (result ≡ placed_of (writing_of buffer.old at p)) × (buffer.new ≡ (writing_of buffer.old at p).bytes) }
{
    match lay(buffer, at, p) {
        Ok(place) => Placed { number: 0, place },
        Err(refused) => Placed {
            number: refused.into(),
            place: at,
        },
    }
}

// Writes a call at a place: the next free place, or why it was refused, and then buffer and place are as they were.
pub fn write(buffer: &mut [u8], at: usize, call: AnyCall) -> Result<usize, NotWritten>
    ensures { (result ≡ written_of buffer.old at call) × (buffer.new ≡ buffer_of buffer.old at call) }
{
    Ok(lay(buffer, at, schedule_parts::parts_of(call))?)
}
