// What a run counted.

/// How many steps and how many trials a run made, and how many of its steps did not settle.
#[derive(Clone, Copy, Debug, PartialEq, Eq)]
pub struct RunCounts {
    pub steps: u64,
    pub trials: u64,
    pub unsettled: u64,
}
