//! What an instruction wants, asked of a store of brigades and a tree of pools: its fault, where it has one. Of all that runs an
//! instruction, here alone it is asked whether a brigade, a bucket or a pool is there.
#![tactic(auto)]

mod automata;
mod brigade_wants;
mod byte_rounds;
mod faults;
mod home_walks;
mod home_wants;
pub mod local_steps;
mod needs;
mod partitions;
mod places;
mod pool_wants;
mod state_walks;
mod trace_walks;
mod traces;
mod walks;
pub mod wants;
