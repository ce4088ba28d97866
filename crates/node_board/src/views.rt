// What a seat of the board knows. No value of these types is made.
use net_types::List;
use phase_machine::Work;

/// What the lead knows: how many seats were split from it, the number of the phase and whether it is open, how many
/// words were reset since it was closed, whether the board was stopped, the words at the last opening of links, and,
/// while no phase is open, all words behind the claim word.
pub struct Plan {
    pub splits: u64,
    pub phase: u64,
    pub is_open: bool,
    pub resets: u64,
    pub stopped: bool,
    pub opened: List<i64>,
    pub known: List<i64>,
}

/// What a seat does: it leads, or it works on items.
pub enum Role {
    Leads(Plan),
    Works(Work),
}

/// What a seat knows: the law of the board, the number of the seat, how often it looked at a count (the lead at the
/// count of done items, a worker at the claim word), what it found at the last look, and what it does.
pub struct View<P> {
    pub law: P,
    pub number: u64,
    pub looks: u64,
    pub last: u64,
    pub role: Role,
}
