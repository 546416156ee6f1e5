// A reader over a schedule: it hands out what stands at its place, one after the other, and keeps its place. `first` does the work on a
// slice and a place and is covered; the methods of the struct are thin.
#![tactic(auto)]

ghost use Rattle.std.specs.Prelude.{◌≡◌};
ghost use Rattle.schedule_reader.specs.Reading.{standing, handed_of, at_place, moved_on};

use schedule_bytes::Next;

#[derive(Drop)]
pub struct Reader<'a> {
    pub src: &'a [u8],
    pub at: usize,
}

// What was handed out, and the place after it.
#[derive(Clone, Copy, PartialEq, Eq, Debug)]
pub struct Handed {
    pub next: Next,
    pub at: usize,
}

// The first that a reader from a place hands out, and where the reader stands then: a record moves the place past it; the end, an unknown
// kind and a cut body leave it. By slice and place: `Reader` is the struct of both.
pub fn first(s: &[u8], at: usize) -> Handed
    ensures { result ≡ handed_of s.now at }
{
    let next = schedule_bytes::next_at(s, at);
    let at = match next {
        Next::Record(_, after) => after,
        _ => at,
    };
    Handed { next, at }
}

// No Iterator: an iterator ends, and says none from then on, while a reader hands out the end, an unknown kind or a cut body again.
impl<'a> Reader<'a> {
    pub fn new(src: &'a [u8], at: usize) -> Reader<'a>
        ensures { result ≡ standing src.entry at }
    {
        Reader { src, at }
    }

    // Hands out what stands at the place, and keeps the place.
    pub fn next(&mut self) -> Next
        ensures { (result ≡ at_place self.old) × (self.new ≡ moved_on self.old) }
    {
        let Handed { next, at } = first(self.src, self.at);
        self.at = at;
        next
    }
}
