//! The HTTP/1.1 front: one connection's requests, and the responses to them (RFC 9112, RFC 9110).
#![tactic(auto)]

mod answering;
mod connection;
mod fault;
mod feeding;
mod handler;
mod http_conn;
mod laws;
mod pace;
mod requests;
mod response;
mod running;
mod serving;
mod slicing;
mod step_slices;
mod steps;
mod task;
mod texts;
mod under_way;
mod wanted;

pub use byte_streams::{CountedSource, Sink, SinkFault, Source};
pub use connection::{close_turns, open_turns, serve};
pub use fault::{FrontFault, FrontKind, Served};
pub use filter_chain::{BlockBytes, Files, Host, Rings, Stored};
pub use handler::{Handler, RequestOutcome, Slice};
pub use http_conn::{HttpConn, Next, Turned};
pub use http_message::{
    Clock, Exchange, Failure, HeadLook, Method, Reply, Site, SiteFault, StatusCode, Version,
    closing, decoded, head_closes, head_refusal, look_at, middle, put_opening, status_closes,
};
pub use laws::worked_rows;
pub use response::ResponseText;
pub use running::CallEnd;
pub use slicing::SLICE_STEPS;
pub use task::{FileRest, RequestTask};
