//! A replay: the configuration of a service, and then its events.
ghost use Rattle.std.specs.Prelude.{◌≡◌, Ok, IfOk, IfSome, OnOk, OnErr, false, not};
ghost use Rattle.std.specs.Io.KnownBytes.{IsAtEnd};
ghost use Rattle.counted_io.specs.Counting.{AtMostOneMore, counted, one_more};
ghost use Rattle.replay.specs.Lines.{LosesLines, IsFirstTold};
ghost use Rattle.replay.specs.Causes.{IsReplayCause, IsReadCause};
ghost use Rattle.replay.specs.Ends.{is_there, has_feed, AreEndsOfRest, AreEnds};
ghost use Rattle.replay.specs.Parts.{AreEventsPart, IsReplayedPart};
ghost use Rattle.replay.specs.Replaying.{config_told, IsOpened, IsReplayed, IsBegun, IsFirstLeft, AreEventsAnswered};
ghost use Rattle.requests.specs.Configurations.{config_in};

use crate::answering::answer_to;
use crate::error::ReplayError;
use crate::lines::{Found, next_line};
use book::{Book, Config};
use counted_io::Counted;
use requests::config;
use std::alloc::{AllocError, Global};
use std::io::{Read, Write};
use texts::json;
use verifier::default_classifier;

/// How a replay ended.
#[derive(Clone, Copy, Debug, PartialEq, Eq)]
pub enum ReplayEnded {
    /// Each event was answered.
    Done,
    /// The first line is missing, or no configuration.
    BadConfig,
}

/// The configuration that a line describes.
fn config_in(alloc: Global, line: &[u8]) -> Result<Option<Config>, AllocError>
    ensures { IfOk result (λ found. found ≡ config_in line.now) }
{
    match json(alloc, line)? {
        Some(value) => Ok(config(&value).ok()),
        None => Ok(None),
    }
}

/// The configuration on a line that was found.
fn config_told(alloc: Global, found: Found, line: &[u8]) -> Result<Option<Config>, AllocError>
    ensures { IfOk result (λ config. config ≡ config_told (is_there found) line.now) }
{
    if found.is_there() {
        config_in(alloc, line)
    } else {
        Ok(None)
    }
}

/// What the first line says.
struct Begun {
    /// The configuration; none where there is no line, or it is no configuration.
    config: Option<Config>,
    /// Whether more lines may follow: the end of the input wasn't met.
    goes_on: bool,
}

/// The configuration on the first line, which is read into `line`.
fn first_config<R: Read>(
    alloc: Global,
    reader: &mut Counted<R>,
    line: &mut Vec<u8>,
) -> Result<Begun, ReplayError>
    ensures begun { IfOk result (λ begun. IsBegun (R.remaining reader.old.inner) (R.remaining reader.new.inner) begun.config) }
    ensures last { IfOk result (λ begun. begun.goes_on ≡ false → IsAtEnd (R.remaining reader.new.inner)) }
    ensures feed { IfOk result (λ begun. has_feed line.new.items ≡ begun.goes_on) }
    ensures first { IfOk result (λ begun. IsFirstTold (R.remaining reader.old.inner) line.new.items) }
    ensures fewer { IfOk result (λ begun. IfSome begun.config (λ config. LosesLines 0 (R.remaining reader.old.inner) (R.remaining reader.new.inner))) }
    ensures cause { IsReadCause result reader.old.failures reader.new.failures (R.remaining reader.old.inner) }
    ensures ends { IfOk result (λ begun. reader.new.ends ≡ counted (not begun.goes_on) reader.old.ends) }
    ensures failed { OnErr result (AtMostOneMore reader.old.ends reader.new.ends) }
{
    let found = next_line(reader, line)?;
    let config = config_told(alloc, found, line)?;
    let goes_on = found.goes_on();
    Ok(Begun { config, goes_on })
}

/// A service with the default classifier.
fn open(alloc: Global, config: Config) -> Result<Book, AllocError>
    ensures { IfOk result (λ book. IsOpened config book) }
{
    match default_classifier(alloc) {
        Ok(classifier) => Book::open(alloc, config, classifier),
        // Only memory can be wanting.
        Err(_) => Err(AllocError),
    }
}

/// Answers the events, one after another.
fn answer_all<R: Read, W: Write>(
    alloc: Global,
    book: &mut Book,
    reader: &mut Counted<R>,
    out: &mut Counted<W>,
) -> Result<(), ReplayError>
    ensures answered { OnOk result (AreEventsAnswered (R.remaining reader.old.inner) book.old book.new (W.contents out.old.inner) (W.contents out.new.inner)) }
    ensures part { AreEventsPart (R.remaining reader.old.inner) book.old (W.contents out.old.inner) (W.contents out.new.inner) }
    ensures cause { IsReplayCause result reader.old.failures reader.new.failures out.old.failures out.new.failures (R.remaining reader.old.inner) }
    ensures ends { AreEndsOfRest result reader.old.ends reader.new.ends }
{
    let mut line = Vec::new(alloc);
    let mut answered = 0;
    'events: while answered < u64::MAX {
        match next_line(reader, &mut line)? {
            Found::Line => answer_to(alloc, book, &line, out)?,
            Found::Last => {
                answer_to(alloc, book, &line, out)?;
                return Ok(());
            }
            Found::End => return Ok(()),
        }
        answered += 1;
    }
    Err(ReplayError::TooLong)
}

/// Replays events on a service that opens with a configuration and the default classifier. The first
/// line has the configuration, as `requests::config` reads it, and each further line is an event, a JSON
/// object: `at` is its moment in milliseconds, below 2^64, and `do` is `acquire`, `report` (with
/// `ticket` and `outcome`), `release` (with `ticket`), `transition` (with `state`), `reset`, `install`
/// (with `program`, as `requests::program` reads it, and `layout`, as `requests::layout` does), `read`, `cut`
/// or `roll` (with `to`). Lines of blanks are passed over. Each event is answered with a line as HTTP answers it: the status, a blank and the
/// body. A line that is no JSON is answered with `BadJson`, one whose values are missing, of the wrong kind
/// or out of range with `BadValue`, and a program that is not accepted with its refusal and slot.
///
/// One line is held at a time, and read byte by byte: give it a reader that is buffered. One failed
/// read or write ends the replay, also one that was interrupted. What was written up to then is a
/// beginning of the answers.
pub fn replay<R: Read, W: Write>(
    alloc: Global,
    reader: &mut Counted<R>,
    out: &mut Counted<W>,
) -> Result<ReplayEnded, ReplayError>
    ensures replayed { IfOk result (λ ended. IsReplayed (R.remaining reader.old.inner) ended (W.contents out.old.inner) (W.contents out.new.inner)) }
    ensures part { IsReplayedPart (R.remaining reader.old.inner) (W.contents out.old.inner) (W.contents out.new.inner) }
    // `ReadFailed` and `WriteFailed` come where that count went up by one, and `TooLong` for an input of
    // 2^64 - 1 lines alone; in each other case no call failed.
    ensures cause { IsReplayCause result reader.old.failures reader.new.failures out.old.failures out.new.failures (R.remaining reader.old.inner) }
    // The end of the input is met once where all was answered, and at most once in each other case.
    ensures done { result ≡ Ok ReplayEnded.Done → reader.new.ends ≡ one_more reader.old.ends }
    ensures ends { AtMostOneMore reader.old.ends reader.new.ends }
{
    let mut first = Vec::new(alloc);
    replay_with(alloc, &mut first, reader, out)
}

/// Replays events as `replay` does, and leaves the first line that says something in `first`, so that a caller can tell
/// what is wrong with a configuration that can't be used. Where no line says anything, it is empty. Where a read fails,
/// memory runs out or the input is too long, it may hold a part of a line, or a line of blanks.
pub fn replay_with<R: Read, W: Write>(
    alloc: Global,
    first: &mut Vec<u8>,
    reader: &mut Counted<R>,
    out: &mut Counted<W>,
) -> Result<ReplayEnded, ReplayError>
    ensures replayed { IfOk result (λ ended. IsReplayed (R.remaining reader.old.inner) ended (W.contents out.old.inner) (W.contents out.new.inner)) }
    ensures part { IsReplayedPart (R.remaining reader.old.inner) (W.contents out.old.inner) (W.contents out.new.inner) }
    ensures cause { IsReplayCause result reader.old.failures reader.new.failures out.old.failures out.new.failures (R.remaining reader.old.inner) }
    // Where the replay ended or a write failed, `first` holds the first line of the input that isn't blank, with its
    // line feed where it has one, and nothing else; it is empty only where all lines are blank.
    ensures first { IsFirstLeft result (R.remaining reader.old.inner) first.new.items }
    // The end of the input is met once where all was answered, never behind a first line that is refused and has its
    // line feed, and at most once in each other case.
    ensures ends { AreEnds result first.new.items reader.old.ends reader.new.ends }
{
    let Begun { config, goes_on } = first_config(alloc, reader, first)?;
    let Some(config) = config else {
        return Ok(ReplayEnded::BadConfig);
    };
    let mut book = open(alloc, config)?;
    if !goes_on {
        return Ok(ReplayEnded::Done);
    }
    answer_all(alloc, &mut book, reader, out)?;
    Ok(ReplayEnded::Done)
}
