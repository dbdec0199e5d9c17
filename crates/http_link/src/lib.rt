//! Calls to services elsewhere over HTTP/1.1: a link that dials a location, posts a text there and gives back the body
//! of the response. Which bytes are written, which bytes are a response and when bytes can be none is defined over the
//! whole of them, as far as a wire's bytes are told.
#![tactic(auto)]

mod announced;
mod exchange;
mod inbox;
mod link;
mod receiving;
mod request;

pub use link::HttpLink;
