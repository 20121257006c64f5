use crate::method::Method;
use sim_base::Body;

/// What a request is answered: a status, its body in JSON, and with status 405 the method that the path takes.
#[derive(Drop)]
pub struct Reply {
    pub status: u16,
    pub allow: Option<Method>,
    pub body: Body,
}
