//! Reading byte by byte, and writing whole texts. One failed call ends each.
ghost use Rattle.std.specs.Prelude.{◌≡◌, Ok, None, is_err, IfOk, OnOk, OnErr};
ghost use Rattle.std.specs.Io.KnownBytes.{Appends, IsAtEnd};
ghost use Rattle.counted_io.specs.Counting.{counted, is_end_found, TakesByte, AppendsPart, AppendsProperPart};

use crate::Counted;
use std::io;
use std::io::{ErrorKind, Read, Write};

impl<R: Read> Counted<R> {
    /// Reads the next byte; None at the end. It makes one call, so what lies inside should be
    /// buffered. The error is that of the failed read, also where it was interrupted.
    pub fn next_byte(&mut self) -> io::Result<Option<u8>>
        ensures byte { IfOk result (λ found. TakesByte (R.remaining self.old.inner) (R.remaining self.new.inner) found) }
        ensures failures { self.new.failures ≡ counted (is_err result) self.old.failures }
        // None is an end that was met, which counted. Nothing is left then.
        ensures end { result ≡ Ok None → IsAtEnd (R.remaining self.new.inner) }
        ensures ends { self.new.ends ≡ counted (is_end_found result) self.old.ends }
    {
        let mut byte = [0; 1];
        let count = self.read(&mut byte)?;
        if count == 0 {
            return Ok(None);
        }
        Ok(Some(byte[0]))
    }
}

impl<W: Write> Counted<W> {
    /// Writes a text. Where a write fails, also where it was interrupted, a beginning of the text
    /// was written, but not all of it, and that failure is the error.
    pub fn send(&mut self, text: &[u8]) -> io::Result<()>
        ensures whole { OnOk result (Appends (W.contents self.old.inner) (W.contents self.new.inner) text.now) }
        ensures part { AppendsPart (W.contents self.old.inner) (W.contents self.new.inner) text.now }
        ensures cut { OnErr result (AppendsProperPart (W.contents self.old.inner) (W.contents self.new.inner) text.now) }
        ensures failures { self.new.failures ≡ counted (is_err result) self.old.failures }
        ensures ends { self.new.ends ≡ self.old.ends }
    {
        let mut sent = 0;
        'pieces: while sent < text.len() {
            let count = self.write(&text[sent..])?;
            if count == 0 {
                return Err(io::Error::from(ErrorKind::WriteZero));
            }
            sent += count;
        }
        Ok(())
    }
}
