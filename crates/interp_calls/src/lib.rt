//! Where calls begin and return, brigades are handed on, and the output takes them.
#![tactic(auto)]

pub mod calls;
pub mod output;
pub mod output_block;
pub mod passes;

pub use byte_text::BlockBytes;
pub use output_block::OutputBlock;
