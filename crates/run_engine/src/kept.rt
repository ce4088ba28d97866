// What a run keeps between two steps.
use crate::settings::SettingRoom;
use crate::subs::SubRunoff;
use continuity::RunAccount;
use net_types::List;
use report_writer::RunCounts;
use summaries::{OutfallSums, SubSums, Summaries};
use trial_model::Nets;

// The state of a run and what its steps and states came to so far. The state before, the lateral inflows and the
// settings are room for those of a step.
#[derive(Debug, Drop)]
pub(crate) struct Kept {
    // the moment of the state, in ms since the start of the run
    pub(crate) moment: i64,
    pub(crate) nets: Nets,
    pub(crate) before: Nets,
    pub(crate) runoff: SubRunoff,
    pub(crate) laterals: List<i128>,
    pub(crate) room: SettingRoom,
    pub(crate) floods: List<i128>,
    pub(crate) sums: Summaries,
    pub(crate) outfalls: OutfallSums,
    pub(crate) subs: SubSums,
    pub(crate) total: RunAccount,
    pub(crate) counts: RunCounts,
}
