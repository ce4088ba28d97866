// What a run begins with.
use hotstart::HotState;
use net_types::Project;

/// What a run begins with: a project, and the state of a hotstart if there is one.
#[derive(Debug, Drop)]
pub struct Start {
    pub project: Project,
    pub hot: Option<HotState>,
}
