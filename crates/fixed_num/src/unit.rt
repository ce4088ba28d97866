/// A unit of the input: the stored value is the user's value times `num / den`, rounded once, and lies
/// within `least` to `most` (this project's profile).
#[derive(Clone, Copy, Debug, PartialEq)]
pub struct Unit {
    pub num: u64,
    pub den: u64,
    pub least: i64,
    pub most: i64,
}
