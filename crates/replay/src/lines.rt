//! The lines of an input.
ghost use Rattle.std.specs.Prelude.{◌≡◌, IfOk, Ok, is_err};
ghost use Rattle.replay.specs.Causes.{IsReadCause};
ghost use Rattle.replay.specs.Ends.{end_found, is_there, goes_on, has_feed, told_found, kept_line, IsLastRead, IsNoneAtEnd, IsEndCount};
ghost use Rattle.replay.specs.Lines.{is_blank, TakesLine, TakesTold, LosesLine};

use crate::error::ReplayError;
use counted_io::Counted;
use std::io::Read;

/// What stands next in an input.
#[derive(Clone, Copy)]
pub(crate) enum Found {
    /// A line with its line feed.
    Line,
    /// The last line, which has no line feed: the end of the input was met behind it.
    Last,
    /// No line: the end of the input was met.
    End,
}

impl Found {
    /// Whether a line was found.
    pub(crate) fn is_there(self) -> bool
        ensures { result ≡ is_there self }
    {
        match self {
            Found::Line | Found::Last => true,
            Found::End => false,
        }
    }

    /// Whether more of the input may follow: its end wasn't met.
    pub(crate) fn goes_on(self) -> bool
        ensures { result ≡ goes_on self }
    {
        match self {
            Found::Line => true,
            Found::Last | Found::End => false,
        }
    }
}

/// Whether a line has blanks alone.
fn is_blank(line: &[u8]) -> bool
    ensures { result ≡ is_blank line.now }
{
    line.iter().all(|byte| *byte == b' ' || *byte == b'\n')
}

/// What the end of the input makes of the bytes before it, which have no line feed.
fn end_found(line: &[u8]) -> Found
    ensures { result ≡ end_found line.now }
{
    if line.is_empty() {
        Found::End
    } else {
        Found::Last
    }
}

/// Reads a line with its line feed. No read is made behind one that met the end of the input.
fn read_line<R: Read>(reader: &mut Counted<R>, line: &mut Vec<u8>) -> Result<Found, ReplayError>
    ensures taken { IfOk result (λ found. TakesLine (R.remaining reader.old.inner) (R.remaining reader.new.inner) (is_there found) line.new.items) }
    ensures last { IfOk result (λ found. IsLastRead found (R.remaining reader.new.inner)) }
    ensures feed { IfOk result (λ found. has_feed line.new.items ≡ goes_on found) }
    ensures none { IfOk result (λ found. IsNoneAtEnd found line.new.items) }
    ensures cause { IsReadCause result reader.old.failures reader.new.failures (R.remaining reader.old.inner) }
    ensures ends { IsEndCount result reader.old.ends reader.new.ends }
{
    line.clear();
    'bytes: loop {
        let Ok(next) = reader.next_byte() else {
            return Err(ReplayError::ReadFailed);
        };
        let Some(byte) = next else {
            return Ok(end_found(line));
        };
        if line.push(byte).is_err() {
            return Err(ReplayError::OutOfMemory);
        }
        if byte == b'\n' {
            return Ok(Found::Line);
        }
    }
}

/// The last line, where it says something; else none, and it is dropped.
fn told_last(line: &mut Vec<u8>) -> Found
    ensures found { result ≡ told_found (is_blank line.old.items) }
    ensures kept { line.new.items ≡ kept_line (is_blank line.old.items) line.old.items }
{
    if is_blank(line) {
        line.clear();
        return Found::End;
    }
    Found::Last
}

/// Reads on to the next line that says something. Where none does up to the end of the input, `line` is empty. No read
/// is made behind one that met the end.
pub(crate) fn next_line<R: Read>(
    reader: &mut Counted<R>,
    line: &mut Vec<u8>,
) -> Result<Found, ReplayError>
    ensures told { IfOk result (λ found. TakesTold (R.remaining reader.old.inner) (R.remaining reader.new.inner) (is_there found) line.new.items) }
    ensures last { IfOk result (λ found. IsLastRead found (R.remaining reader.new.inner)) }
    ensures feed { IfOk result (λ found. has_feed line.new.items ≡ goes_on found) }
    ensures none { IfOk result (λ found. IsNoneAtEnd found line.new.items) }
    ensures fewer { IfOk result (λ found. LosesLine (is_there found) (R.remaining reader.old.inner) (R.remaining reader.new.inner)) }
    ensures cause { IsReadCause result reader.old.failures reader.new.failures (R.remaining reader.old.inner) }
    ensures ends { IsEndCount result reader.old.ends reader.new.ends }
{
    let mut passed = 0;
    'blanks: while passed < u64::MAX {
        match read_line(reader, line)? {
            Found::Line => {
                if !is_blank(line) {
                    return Ok(Found::Line);
                }
            }
            Found::Last => return Ok(told_last(line)),
            Found::End => return Ok(Found::End),
        }
        passed += 1;
    }
    Err(ReplayError::TooLong)
}
