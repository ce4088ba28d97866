// The state of runoff, and what a step gives.
use infiltration::InfilState;

/// The state of runoff of a subcatchment.
///
/// `depths` are the depths of water on the pervious subarea, the impervious one without and the impervious one with
/// depression storage, in nm; `infil` is the state of infiltration; `flow` is the flow of the step before, in cm³/s.
#[derive(Clone, Copy, Debug, PartialEq, Eq)]
pub struct SubState {
    pub depths: [i64; 3],
    pub infil: InfilState,
    pub flow: i64,
}

/// What the rain of a step became: the volumes of rain, infiltration and runoff, and the change of the volume that is
/// stored on the subareas, in mm³.
#[derive(Clone, Copy, Debug, PartialEq, Eq)]
pub struct SubStep {
    pub rain: i128,
    pub infil: i128,
    pub runoff: i128,
    pub stored: i128,
}
