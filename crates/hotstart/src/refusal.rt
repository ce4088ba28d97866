// What is wrong with a file.

// The first fault of a file: a place is a number of a byte, from 0.
#[derive(Clone, Copy, Debug, PartialEq, Eq)]
pub(crate) enum Refusal {
    BadMagic { place: u64 },
    Ends { place: u64 },
    Count { what: u32, file: u32, project: u32 },
    Kind { file: u32, project: u32 },
    BadValue { place: u64 },
    GoesOn { place: u64 },
}
