//! What messages are taken in with.
use http_messages::HeadParser;
use std::alloc::{AllocError, Global};

/// How many bytes a read may give.
pub(crate) const PIECE: usize = 2_048;

/// What a worker takes messages in with: a parser of heads, and room for one read. One is enough for all connections of a
/// worker, since nothing of a connection stays in it between two turns. Its room is made zero once, and not at each read.
#[derive(Drop)]
pub struct Intake {
    pub(crate) parser: HeadParser,
    pub(crate) piece: [u8; PIECE],
}

impl Intake {
    /// Makes a parser that has parsed nothing, and room for one read. The error is want of memory.
    pub fn new(alloc: Global) -> Result<Intake, AllocError> {
        let parser = HeadParser::new(alloc)?;
        Ok(Intake {
            parser,
            piece: [0; PIECE],
        })
    }
}
