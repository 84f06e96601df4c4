//! Connections over HTTP that are served in turns: each turn writes, answers and reads until a call would have to wait.
#![tactic(auto)]

mod answering;
mod blocking;
mod clock;
mod connection;
mod ended;
mod input;
mod intake;
pub mod laws;
mod output;
mod phase;
mod requests;
mod responder;
mod rounds;
mod serving;
mod sessions;
mod stage;
mod turned;
mod turning;

pub use clock::Clock;
pub use connection::Connection;
pub use ended::Ended;
pub use intake::Intake;
pub use phase::Phase;
pub use responder::{HttpRequest, Responder};
pub use serving::serve;
pub use sessions::Session;
pub use stage::Stage;
pub use turned::{Turned, Want};
pub use turning::turn;
