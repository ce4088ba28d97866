// The volumes of one or more routing steps.

/// A flow routing account, in mm³: what came in, what left at outfalls, what flooded, what is stored more than
/// before, and the continuity error.
#[derive(Clone, Copy, Debug, PartialEq, Eq)]
pub struct StepAccount {
    pub inflow: i128,
    pub outfall: i128,
    pub flooding: i128,
    pub storage: i128,
    pub error: i128,
}
