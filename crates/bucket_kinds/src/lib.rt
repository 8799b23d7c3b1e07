//! One bucket at a time (apr_buckets.h): splitting, copying, setting aside and reading, with the files that
//! FILE buckets are read from.
#![tactic(auto)]

mod cutting;
mod disk_files;
mod files;
mod kept_files;
mod mem_files;
mod numbers;
mod placing;
mod reading;
mod refusal;
mod stored;

pub use apr_region::{Region, Span};
pub use cutting::{aside_bucket, copy_bucket, halves, length, split_bucket};
pub use disk_files::DiskFiles;
pub use files::{FileNo, Files};
pub use mem_files::MemFiles;
pub use placing::{
    heap_copy, keep_own, place_pool, placed_bytes, stored_aside, stored_copy, stored_halves,
};
pub use reading::{read_bucket, read_into, rest_of_read, room_to_read};
pub use refusal::{AddRefusal, FileFault, ReadError, ReadFault, SplitError};
pub use run_model::{Bucket, Content, Home, Kind, Seq};
pub use stored::{Kept, RegionBytes, Stored};
