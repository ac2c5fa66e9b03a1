//! What a job is run with.
use effect_gate::World;
use goal_kinds::GoalKinds;
use region_split::Text;
use std::sync::Arc;
use text_load::Query;

/// What a job is run with beside its tree: the world, the program with what its goals are, and the queries, of which so many were
/// opened.
#[derive(Drop)]
pub struct JobRun {
    pub world: World,
    pub text: Arc<Text>,
    pub kinds: GoalKinds,
    pub queries: Vec<Query>,
    pub asked: usize,
}
