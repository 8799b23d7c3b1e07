//! The messages of HTTP/1.1 (RFC 9112, RFC 9110): what the head of a request asks for, the files of a site, and the text of a response.
#![tactic(auto)]

mod asks;
mod clock;
mod failure;
mod fields;
mod looking;
mod paths;
mod read_buffer;
mod refusing;
mod reply;
mod replying;
mod site;
mod site_file;
mod status;

pub use asks::target_path;
pub use byte_text::BlockBytes;
pub use clock::{Clock, Exchange};
pub use failure::Failure;
pub use looking::{HeadLook, look_at};
pub use paths::decoded;
pub use read_buffer::ReadBuffer;
pub use refusing::{head_closes, head_refusal, status_closes};
pub use reply::{Method, Reply, Version};
pub use replying::{closing, middle, put_opening};
pub use run_model::Refusal;
pub use site::{Site, SiteFault};
pub use site_file::{SITE_BYTES, SiteLine, SiteRefusal, site_line, site_of};
pub use status::StatusCode;
