use net_types::List;

/// What a seat does, as contracts see it.
///
/// `look` is the phase in which it saw that items are left, 0 if none. `tag` is the phase of its item and of the items
/// that it finished, `stage` 0 while it has no item, else one more than the acts that it made on its item. `loaded` are
/// the numbers that it loaded for its item, in the order of the loads, `finished` the items that it finished.
#[derive(Debug, Drop)]
pub struct Work {
    pub look: u64,
    pub tag: u64,
    pub stage: u64,
    pub item: u64,
    pub loaded: List<i64>,
    pub finished: List<u64>,
}
