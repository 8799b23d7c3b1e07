//! Regions: bytes of a pool, as `apr_pmemdup` gives them (`apr_pools.h`), in raw blocks that are given up together.
#![tactic(auto)]

mod chunk;
mod region;

pub use region::{Region, Span};
