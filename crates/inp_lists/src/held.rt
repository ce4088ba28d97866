// What the walk over lines holds.
use inp_lines::Names;
use net_types::List;

/// The names that lines define so far, their count, and the record and the state of each, by the names' numbers.
/// `total` is how many pairs the lines have.
#[derive(Drop)]
pub(crate) struct Held<'a, R, S> {
    pub(crate) names: Names<'a>,
    pub(crate) count: u32,
    pub(crate) total: usize,
    pub(crate) records: List<R>,
    pub(crate) states: List<S>,
}
