//! The HTTP interface of services: serving a connection over any reader, writer, answerer and clock.
#![tactic(auto)]

mod answerer;
mod answering;
mod asking;
mod bodies;
mod books;
mod layouts;
mod listing;
mod message;
mod phrase;
mod responder;
mod serving;

pub use answerer::Answerer;
pub use bodies::body_asks;
pub use books::{Books, NamedBook};
pub use http_connection::{Clock, Ended};
pub use message::{AnswerMessage, write_answer};
pub use responder::HttpResponder;
pub use serving::serve;
