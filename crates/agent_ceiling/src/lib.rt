// The ceiling of tickets: whether the record is full, and the clearing word of the last ticket of a kind.
// It relies on the contracts of `word_counter` and `word_layout`, and on which number `agent_request` keeps for no clearing word, alone.
#![tactic(auto)]

ghost use Rattle.std.specs.Prelude.{◌≡◌};
ghost use Rattle.common.specs.Choice.{but};
ghost use Rattle.agent_request.specs.Request.{NONE};
ghost use Rattle.agent_ceiling.specs.Ceiling.{full_at, rest_of, clearing_word_of};

use agent_ticket::Mode;
use word_counter::{Counting, Exclusive, Shared};
use word_layout::Counters;

// As many tickets of one kind are given before the record is cleared.
const CEIL: u16 = 32768;
// The last of them.
const LAST: u16 = 32767;

// Turned away: the ceiling of either kind is reached.
pub fn full(p: Counters) -> bool
    ensures { result ≡ full_at p }
{
    p.mx.reaches(Exclusive(CEIL)) || p.ms.reaches(Shared(CEIL))
}

// The word of a record at rest: as many releases of each kind as tickets.
fn rest(x: Exclusive, s: Shared) -> u64
    ensures { result ≡ rest_of x s }
{
    u64::from(Counters {
        nx: x,
        ns: s,
        mx: x,
        ms: s,
    })
}

// The clearing word that comes with a ticket drawn at the counters p, if one does.
#[tactic(auto, unfolding(crate::specs::Ceiling::clearing_word_of))]
pub fn clearing_word(mode: Mode, p: Counters) -> Option<u64>
    ensures { result ≡ but NONE (clearing_word_of mode p) }
{
    match mode {
        Mode::Reader if p.ms.equals(Shared(LAST)) => Some(rest(p.mx, Shared(CEIL))),
        Mode::Writer if p.mx.equals(Exclusive(LAST)) => Some(rest(Exclusive(CEIL), p.ms)),
        _ => None,
    }
}
