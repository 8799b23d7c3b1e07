//! What instructions do, over a store of brigades: one instance of a module and one call of it. What is public here is for `module_run`, the
//! connection above.
#![tactic(auto)]

mod aside_steps;
mod bucket_steps;
mod clears;
mod creates;
mod cut_steps;
mod effects;
pub mod execute_in_store;
pub mod execute_instr;
mod execute_on_store;
mod execute_without_files;
pub mod labels;
pub mod labels_run;
mod live_pools;
mod makers;
mod part_steps;
mod pool_steps;
mod reads;
mod saves;
mod split_steps;

pub use brigade_ops::PoolId;
pub use labels_run::LabelsRun;
pub use run_model::Payload;
