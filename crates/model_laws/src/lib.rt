//! The laws of the definitions in `run_model`: what each step and each event keeps, and worked runs.
#![tactic(auto)]

pub mod laws;
