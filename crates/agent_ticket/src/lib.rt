// A ticket and what the word says of it: the turn test.
// It compares by the methods of `word_counter::Counting` alone, so that an exclusive number meets exclusive counters and a shared one shared counters.
#![tactic(auto)]

ghost use Rattle.std.specs.Prelude.{◌≡◌};
ghost use Rattle.agent_ticket.specs.Turn.{ahead_of, passed_at, granted_at, turn_of};

use word_counter::{Counting, Exclusive, Shared};
use word_layout::Counters;

// (x, s): the next ticket numbers of both kinds as they were when the ticket was drawn.
#[repr(C)]
#[derive(Clone, Copy, PartialEq, Eq, Debug)]
pub struct Ticket(pub Exclusive, pub Shared);

#[derive(Clone, Copy, PartialEq, Eq, Debug)]
pub enum Mode {
    Reader,
    Writer,
}

// What the turn test finds.
#[derive(Clone, Copy, PartialEq, Eq, Debug)]
pub enum Turn {
    Passed,
    Granted,
    Ahead(u64),
}

// Mode, ticket and counters stand side by side as in the rules (`Turn.antt`).
fn passed(mode: Mode, ticket: Ticket, v: Counters) -> bool
    ensures { result ≡ passed_at mode ticket v }
{
    v.nx.exceeds(ticket.0) || mode == Mode::Writer && v.ns.exceeds(ticket.1)
}

fn granted(mode: Mode, ticket: Ticket, v: Counters) -> bool
    ensures { result ≡ granted_at mode ticket v }
{
    v.nx.equals(ticket.0) && (mode == Mode::Reader || v.ns.equals(ticket.1))
}

fn ahead(mode: Mode, ticket: Ticket, v: Counters) -> u64
    ensures { result ≡ ahead_of mode ticket v }
{
    match mode {
        Mode::Reader => ticket.0.beyond(v.nx),
        Mode::Writer => ticket.0.beyond(v.nx) + ticket.1.beyond(v.ns),
    }
}

// passed, granted, or waiting with the number ahead.
#[tactic(auto, unfolding(crate::specs::Turn::turn_of))]
pub fn turn_of(mode: Mode, ticket: Ticket, v: Counters) -> Turn
    ensures { result ≡ turn_of mode ticket v }
{
    if passed(mode, ticket, v) {
        Turn::Passed
    } else if granted(mode, ticket, v) {
        Turn::Granted
    } else {
        Turn::Ahead(ahead(mode, ticket, v))
    }
}
