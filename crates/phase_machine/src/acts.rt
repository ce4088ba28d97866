/// One step of one seat. Seat 0 is the lead's, the others are those of workers.
#[derive(Clone, Copy, Debug, PartialEq, Eq)]
pub struct Event {
    pub seat: u32,
    pub act: Act,
}

/// What a seat does in one step. The acts from `LoadDone` on belong to seat 0, the others to the other seats.
///
/// A worker looks whether items are left (`Look`) and claims the next one (`Claim`). Of a link it loads the inputs,
/// adds the share's amounts to the sums of its ends, offers its time and puts its flow; of a node it loads the inputs
/// and the sums, puts its new head and marks it where it isn't settled; then it is done with the item.
#[derive(Clone, Copy, Debug, PartialEq, Eq)]
pub enum Act {
    Look,
    Claim,
    LoadInput,
    AddFirst,
    AddSecond,
    AddAreaFirst,
    AddAreaSecond,
    OfferTime,
    PutFlow,
    Done,
    LoadSums,
    PutHead,
    MarkUnsettled,
    LoadDone,
    Reset,
    /// Stores a value in a word that the next trial reads.
    SetFixed { word: u32, value: i64 },
    OpenLinks,
    OpenNodes,
    Stop,
}

/// The machine has no such step now.
#[derive(Clone, Copy, Debug, PartialEq, Eq)]
pub struct NotNow;
