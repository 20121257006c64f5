//! HTTP as the monitor speaks it: heads of requests, the route of a path, and the bytes of a response. Nothing of the engine.
#![tactic(auto)]

mod call;
mod endpoint;
mod head;
mod line_end;
mod lines;
mod method;
mod number;
mod pieces;
mod read;
mod reply;
mod response;
mod routes;
mod span;
mod status;
mod text;
mod wait;

pub use call::{Call, Routed};
pub use head::{Head, HeadRead};
pub use method::Method;
pub use pieces::HeadPieces;
pub use read::{LONGEST_HEAD, MOST_LINES, read_head};
pub use reply::Reply;
pub use response::respond;
pub use routes::Routes;
pub use span::Span;
pub use status::error_text;
