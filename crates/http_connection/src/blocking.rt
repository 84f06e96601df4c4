//! A reader and a writer that wait, as one transport.

use counted_io::{Counted, Polling, Transport};
use std::io::{Read, Write};

/// A reader and a writer whose calls wait until they are done: so none answers that it would have to wait, and one that
/// fails has failed, whatever the error says.
#[derive(Drop)]
pub(crate) struct Blocking<'a, 'b, R, W> {
    pub(crate) reader: &'a mut Counted<R>,
    pub(crate) writer: &'b mut Counted<W>,
}

impl<'a, 'b, R: Read, W: Write> Transport for Blocking<'a, 'b, R, W> {
    ghost use Rattle.std.specs.Prelude.{[], ◌∷◌};
    ghost use Rattle.http_connection.specs.Blocking.{blocking_counts};

    ghost remaining = { λ blocking. R.remaining blocking.reader.now.inner };

    ghost contents = { λ blocking. W.contents blocking.writer.now.inner };

    ghost reads = { λ blocking. blocking_counts blocking.reader.now };

    ghost writes = { λ blocking. blocking_counts blocking.writer.now };

    ghost lenders = { λ blocking. blocking.reader.ghost_name ∷ blocking.writer.ghost_name ∷ [] };

    fn take(&mut self, buf: &mut [u8]) -> Polling {
        match self.reader.read(buf) {
            Ok(taken) => Polling::Done(taken),
            Err(_) => Polling::Failed,
        }
    }

    fn put(&mut self, buf: &[u8]) -> Polling {
        match self.writer.write(buf) {
            Ok(taken) if taken == 0 && !buf.is_empty() => Polling::Failed,
            Ok(taken) => Polling::Done(taken),
            Err(_) => Polling::Failed,
        }
    }
}
