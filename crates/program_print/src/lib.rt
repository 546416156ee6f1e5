// What programs print: a line for each entry of a report, the last line, and a line for each care of a repair. A line is an array of numbers, in
// decimal with a space between them. Lines are collected and go out in large writes. No contract can say what is written.
#![tactic(auto)]

ghost use Rattle.std.specs.Iterator.{IsFinite};
ghost use Rattle.std.specs.Prelude.{◌≤◌, length};

use std::io::{Cursor, Print, Stdout, Write};

// Writes the text that was collected. What cannot be written is passed over: a program plays to its end all the same.
fn flush(out: Stdout, text: &mut Cursor<&mut [u8]>) {
    if let Some(written) = text.get_ref().get(..text.position() as usize) {
        let _ = out.write_all(written);
    }
    text.set_position(0);
}

// Puts the line of the numbers at the end of the room, from its last byte to its first, and answers where it begins. A number has at most 20 digits.
fn put_line(room: &mut [u8; 105], numbers: &[u64]) -> usize
    requires { length numbers.now ≤ 5 }
    ensures { result ≤ 105 }
{
    let mut from = 105;
    let mut after = b'\n';
    for number in numbers.iter().rev() {
        room[from - 1] = after;
        after = b' ';
        from = itoa::write_digits(*number, room, from - 1);
    }
    from
}

// Writes the first `count` lines, of at most 54 bytes each. Of more than 65,536, which no program has, only those that fill a text go out.
fn lines<const N: usize, I: Iterator<Item = [u64; N]> + Drop>(out: Stdout, count: usize, all: I)
    requires short { N ≤ 5 }
    requires can { I.can_next all }
    requires ends { IsFinite (I.remaining all) }
{
    let mut bytes = [0u8; 65536];
    let mut text = Cursor::new(&mut bytes[..]);
    let mut room = [0u8; 105];
    for numbers in all.take(count.min(65536)) {
        let from = put_line(&mut room, &numbers);
        let _ = text.write_all(&room[from..]);
        if 65472 < text.position() {
            flush(out, &mut text);
        }
    }
    if count <= 65536 {
        flush(out, &mut text);
    }
}

// The lines of the first entries of a report, counted on from `before`.
pub fn entry_lines(out: Stdout, before: u64, report: &[u8], entries: usize) {
    let found = report.as_chunks::<12>().0.iter().enumerate();
    lines(
        out,
        entries,
        found.map(|(i, entry)| {
            [
                before.wrapping_add(i as u64 + 1),
                entry[0].into(),
                entry[1].into(),
                entry[2].into(),
                u64::from_le_bytes(*entry.last_chunk().unwrap()),
            ]
        }),
    );
}

// The last line: end, ending number, records, bytes taken, verbs. Any four numbers, one by one: narrower types would ask more of callers.
pub fn end_line(out: Stdout, ending: u64, records: u64, bytes: u64, verbs: u64) {
    let _ = println!(out; "end {ending} {records} {bytes} {verbs}");
}

// The lines of the first cares of a log: slot, old phase, outcome.
pub fn care_lines(out: Stdout, log: &[u8], cares: usize) {
    let found = log.as_chunks::<3>().0.iter();
    lines(out, cares, found.map(|care| care.map(u64::from)));
}
