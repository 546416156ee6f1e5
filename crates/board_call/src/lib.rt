// A call on the board, with every number as wide as a caller can make it, but for a node, which is one byte. What a call does stands in `board_rules`
// and `board_nodes`, how it is written in bytes in `schedule_bytes`.
#![tactic(auto)]

#[derive(Clone, Copy, PartialEq, Eq, Debug)]
pub enum Call {
    // record, mode
    Open(u64, u64),
    // slot
    Step(u64),
    // slot
    Release(u64),
    // record
    Show(u64),
}

// Any call: one of the four above, made by node 0 where it opens, or one for lost nodes.
#[derive(Clone, Copy, PartialEq, Eq, Debug)]
pub enum AnyCall {
    Base(Call),
    // record, mode, node
    OpenAs(u64, u64, u8),
    // node
    Fence(u8),
    // slot
    Care(u64),
}
