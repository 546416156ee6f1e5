// The table of 256 request slots and the map over it, in definitions and laws alone. `board_begin`,
// `board_map_kept` and `board_map_read` compute them.
#![tactic(auto)]

use agent_request::Request;

// What a board keeps: its slots, for each of them its node (0 for one that was freed), and for each node whether it is fenced.
// The nodes stand in an array beside the slots: `MapFindsLowest`, `MarkFollowsStore` and the others of `Promises.antt` speak of the list of slots by
// itself, before there are nodes.
#[derive(Clone, Copy)]
pub struct Board {
    pub slots: [Request; 256],
    pub nodes: [u8; 256],
    pub fenced: [bool; 256],
}

// A one for each slot in use.
#[derive(Clone, Copy, PartialEq, Eq, Debug)]
pub struct Map {
    pub parts: [u64; 4],
}
