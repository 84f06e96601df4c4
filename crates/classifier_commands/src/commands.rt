//! The commands that the program's words name.
ghost use Rattle.std.specs.Prelude.{◌≡◌, Ok, IsNone, IfOk, IfErr, IfSome};
ghost use Rattle.std.specs.Io.KnownBytes.{Appends};
ghost use Rattle.counted_io.specs.Counting.{AtMostOneMore};
ghost use Rattle.classifier_commands.specs.Causes.{IsCommandCause, IsWriteCause};
ghost use Rattle.classifier_commands.specs.Answers.{IsAccepted};
ghost use Rattle.classifier_commands.specs.Commands.{NamesNone, NamesFaulty, AsksForInput, WantsInput, HasFault, IsRequest, IsDone, HasJudged, HasAssembled, HasDisassembled, usage, code_of, status_of_error, IsSettled, HasAnswered};
ghost use Rattle.classifier_commands.specs.Endings.{IsUsageShown, IsCommandEnd, IsUnanswered, IsInPart, IsAnsweredInPart, IsCut, IsExplained};

use crate::answer::Answer;
use crate::assembling::{assembled, disassembled};
use crate::error::CommandError;
use crate::explaining::notify_reason;
use crate::input::read_all;
use crate::judging::{judge, verify};
use crate::printing::{print, print_line, print_lines};
use bpf_profile::Layout;
use counted_io::Counted;
use std::alloc::Global;
use std::io::{Read, Write};

/// What the program is asked for.
#[derive(Drop)]
enum Request<'a> {
    /// `judge PROGRAM [LAYOUT]`: an outcome's JSON is read.
    Judge { program: &'a str, layout: Layout },
    /// `verify PROGRAM [LAYOUT]`: nothing is read.
    Verify { program: &'a str, layout: Layout },
    /// `asm`: assembler text is read.
    Assemble,
    /// `dis PROGRAM`: nothing is read.
    Disassemble(&'a str),
}

impl<'a> Request<'a> {
    /// What the words ask for. A layout that is missing is layout 1.
    fn from_words(words: &[&'a str]) -> Option<Request<'a>>
        ensures some { IfSome result (λ request. IsRequest words.now request) }
        ensures none { IsNone result → NamesNone words.now }
    {
        match *words {
            ["judge", program] | ["judge", program, "1"] => Some(Request::Judge {
                program,
                layout: Layout::One,
            }),
            ["judge", program, "2"] => Some(Request::Judge {
                program,
                layout: Layout::Two,
            }),
            ["verify", program] | ["verify", program, "1"] => Some(Request::Verify {
                program,
                layout: Layout::One,
            }),
            ["verify", program, "2"] => Some(Request::Verify {
                program,
                layout: Layout::Two,
            }),
            ["asm"] => Some(Request::Assemble),
            ["dis", program] => Some(Request::Disassemble(program)),
            _ => None,
        }
    }

    /// Does what is asked for.
    fn fulfil<R: Read, O: Write>(
        &self,
        alloc: Global,
        reader: &mut Counted<R>,
        out: &mut Counted<O>,
    ) -> Result<Status, CommandError>
        ensures done { IfOk result (λ status. IsDone self.now (R.remaining reader.old.inner) status (O.contents out.old.inner) (O.contents out.new.inner)) }
        ensures settled { IfOk result IsSettled }
        ensures part { IfErr result (λ error. IsCut error out.old out.new (IsInPart (IsDone self.now (R.remaining reader.old.inner)) (O.contents out.old.inner) (O.contents out.new.inner))) }
        ensures unread { (WantsInput self.now → ⊥) → reader.new ≡ reader.old }
        ensures cause { IsCommandCause result reader.old.failures reader.new.failures out.old.failures out.new.failures }
        ensures ends { AtMostOneMore reader.old.ends reader.new.ends }
    {
        match self {
            Request::Judge { program, layout } => {
                judge_outcome(alloc, program, *layout, reader, out)
            }
            Request::Verify { program, layout } => {
                print(alloc, verify(alloc, program, *layout), out)
            }
            Request::Assemble => assemble_text(alloc, reader, out),
            Request::Disassemble(program) => disassemble_program(alloc, program, out),
        }
    }

    /// Writes on `err` why the program is refused, where it is one to be verified.
    fn explain<E: Write>(&self, alloc: Global, err: &mut Counted<E>)
        ensures explained { IsExplained (E.contents err.old.inner) (E.contents err.new.inner) }
        ensures quiet { (HasFault self.now → ⊥) → err.new ≡ err.old }
    {
        match self {
            Request::Judge { program, layout } | Request::Verify { program, layout } => {
                notify_reason(alloc, program, *layout, err);
            }
            Request::Assemble | Request::Disassemble(_) => {}
        }
    }

    /// Does what is asked for, and where that is refused, writes on `err` why the program is.
    fn fulfil_aloud<R: Read, O: Write, E: Write>(
        &self,
        alloc: Global,
        reader: &mut Counted<R>,
        out: &mut Counted<O>,
        err: &mut Counted<E>,
    ) -> Result<Status, CommandError>
        ensures done { IfOk result (λ status. IsDone self.now (R.remaining reader.old.inner) status (O.contents out.old.inner) (O.contents out.new.inner)) }
        ensures settled { IfOk result IsSettled }
        ensures part { IfErr result (λ error. IsCut error out.old out.new (IsInPart (IsDone self.now (R.remaining reader.old.inner)) (O.contents out.old.inner) (O.contents out.new.inner))) }
        ensures unread { (WantsInput self.now → ⊥) → reader.new ≡ reader.old }
        ensures explained { IsExplained (E.contents err.old.inner) (E.contents err.new.inner) }
        ensures quiet { (HasFault self.now × (result ≡ Ok Status.Refused) → ⊥) → err.new ≡ err.old }
        ensures cause { IsCommandCause result reader.old.failures reader.new.failures out.old.failures out.new.failures }
        ensures ends { AtMostOneMore reader.old.ends reader.new.ends }
    {
        let ended = self.fulfil(alloc, reader, out)?;
        if ended == Status::Refused {
            self.explain(alloc, err);
        }
        Ok(ended)
    }
}

/// How a command ended.
#[derive(Clone, Copy, Debug, PartialEq, Eq)]
pub enum Status {
    /// What was asked for was done, and printed.
    Done,
    /// It was refused, and the refusal was printed.
    Refused,
    /// The words name no command, and the usage was printed.
    WrongArguments,
    /// The words name no command, and writing the usage failed.
    UsageFailed,
    /// A read failed.
    ReadFailed,
    /// A write failed.
    WriteFailed,
    /// Memory ran out.
    OutOfMemory,
    /// The input of a replay has 2^64 - 1 lines or more. No command on a classifier ends so.
    TooLong,
}

impl Status {
    /// The status with which the program ends: 0 where it is done, 1 where it is refused or failed,
    /// 2 where the words name no command.
    pub fn code(self) -> u8
        ensures { result ≡ code_of self }
    {
        match self {
            Status::Done => 0,
            Status::Refused
            | Status::ReadFailed
            | Status::WriteFailed
            | Status::OutOfMemory
            | Status::TooLong => 1,
            Status::WrongArguments | Status::UsageFailed => 2,
        }
    }

    /// How a command ends that failed.
    fn of_error(error: CommandError) -> Status
        ensures { result ≡ status_of_error error }
    {
        match error {
            CommandError::ReadFailed => Status::ReadFailed,
            CommandError::WriteFailed => Status::WriteFailed,
            CommandError::OutOfMemory => Status::OutOfMemory,
        }
    }
}

impl From<Answer> for Status {
    ghost use Rattle.std.specs.Prelude.{◌≡◌};
    ghost use Rattle.classifier_commands.specs.Answers.{IsAllOf};
    ghost use Rattle.classifier_commands.specs.Commands.{status_of};

    ghost from_gives = { λ answer status. status ≡ status_of answer };

    fn from(answer: Answer) -> Status {
        match answer {
            Answer::Judged { .. } | Answer::Accepted { .. } => Status::Done,
            Answer::Refused(_) => Status::Refused,
        }
    }
}

/// Judges the outcome that is read, by a program for records of a layout.
fn judge_outcome<R: Read, O: Write>(
    alloc: Global,
    program: &str,
    layout: Layout,
    reader: &mut Counted<R>,
    out: &mut Counted<O>,
) -> Result<Status, CommandError>
    ensures judged { IfOk result (λ status. HasJudged layout program.now (R.remaining reader.old.inner) status (O.contents out.old.inner) (O.contents out.new.inner)) }
    ensures settled { IfOk result IsSettled }
    ensures part { IfErr result (λ error. IsCut error out.old out.new (IsInPart (HasJudged layout program.now (R.remaining reader.old.inner)) (O.contents out.old.inner) (O.contents out.new.inner))) }
    ensures unread { (IsAccepted layout program.now → ⊥) → reader.new ≡ reader.old }
    ensures cause { IsCommandCause result reader.old.failures reader.new.failures out.old.failures out.new.failures }
    ensures ends { AtMostOneMore reader.old.ends reader.new.ends }
{
    let answer = judge(alloc, program, layout, reader)?;
    print(alloc, answer, out)
}

/// Assembles the text that is read.
fn assemble_text<R: Read, O: Write>(
    alloc: Global,
    reader: &mut Counted<R>,
    out: &mut Counted<O>,
) -> Result<Status, CommandError>
    ensures assembled { IfOk result (λ status. HasAssembled (R.remaining reader.old.inner) status (O.contents out.old.inner) (O.contents out.new.inner)) }
    ensures settled { IfOk result IsSettled }
    ensures part { IfErr result (λ error. IsCut error out.old out.new (IsInPart (HasAssembled (R.remaining reader.old.inner)) (O.contents out.old.inner) (O.contents out.new.inner))) }
    ensures cause { IsCommandCause result reader.old.failures reader.new.failures out.old.failures out.new.failures }
    ensures ends { AtMostOneMore reader.old.ends reader.new.ends }
{
    let text = read_all(alloc, reader)?;
    match assembled(alloc, &text) {
        Ok(hex) => print_line(alloc, &hex, out),
        Err(fault) => print(alloc, Answer::Refused(fault), out),
    }
}

/// Disassembles a program.
fn disassemble_program<O: Write>(
    alloc: Global,
    program: &str,
    out: &mut Counted<O>,
) -> Result<Status, CommandError>
    ensures disassembled { IfOk result (λ status. HasDisassembled program.now status (O.contents out.old.inner) (O.contents out.new.inner)) }
    ensures settled { IfOk result IsSettled }
    ensures part { IfErr result (λ error. IsCut error out.old out.new (IsInPart (HasDisassembled program.now) (O.contents out.old.inner) (O.contents out.new.inner))) }
    ensures cause { IsWriteCause result out.old.failures out.new.failures }
{
    match disassembled(alloc, program) {
        Ok(lines) => print_lines(&lines, out),
        Err(fault) => print(alloc, Answer::Refused(fault), out),
    }
}

/// Prints the usage.
fn show_usage<E: Write>(err: &mut Counted<E>) -> Status
    ensures { IsUsageShown result (E.contents err.old.inner) (E.contents err.new.inner) err.old.failures err.new.failures }
{
    match err.send("usage: sidecar judge|asm|dis|verify|replay|serve\n".as_bytes()) {
        Ok(()) => Status::WrongArguments,
        Err(_) => Status::UsageFailed,
    }
}

/// Does what the words ask for of a classifier, `judge`, `verify`, `asm` or `dis`, and answers how that ended.
///
/// An answer, also a refusal, is one line on `out`; for wrong words there is a line on `err` and
/// nothing on `out`. Behind the refusal of the program of `judge` or `verify` there are lines on `err` too, which say
/// why it is refused, for people. Where the reader or the writer fails, or memory runs out with no answer that
/// says so, nothing more is written. One failed read or write ends the command, also one that was
/// interrupted. Input is read byte by byte: give it a reader that is buffered. Behind the program of `judge` and of
/// `verify` may stand the number of the layout of records that it is for, `1` or `2`; without it, it is for layout 1.
pub fn command<R: Read, O: Write, E: Write>(
    alloc: Global,
    words: &[&str],
    reader: &mut Counted<R>,
    out: &mut Counted<O>,
    err: &mut Counted<E>,
) -> Status
    // Where it is done, the command's answer was printed.
    ensures done { result ≡ Status.Done → HasAnswered words.now (R.remaining reader.old.inner) Status.Done (O.contents out.old.inner) (O.contents out.new.inner) }
    // Where it is refused, the refusal of what the words ask for was printed.
    ensures refused { result ≡ Status.Refused → HasAnswered words.now (R.remaining reader.old.inner) Status.Refused (O.contents out.old.inner) (O.contents out.new.inner) }
    // With wrong arguments the words name no command, and the usage was printed.
    ensures wrong { result ≡ Status.WrongArguments → NamesNone words.now × Appends (E.contents err.old.inner) (E.contents err.new.inner) usage }
    ensures unnamed { result ≡ Status.UsageFailed → NamesNone words.now }
    // Where a read fails or memory runs out, nothing is written on `out`; where a write fails, a beginning of an answer
    // to the words.
    ensures unanswered { IsUnanswered result → out.new ≡ out.old }
    ensures part { result ≡ Status.WriteFailed → IsAnsweredInPart words.now (R.remaining reader.old.inner) (O.contents out.old.inner) (O.contents out.new.inner) }
    // No input is taken but by `asm`, and by `judge` with a program that is accepted on records of its layout.
    ensures unread { (AsksForInput words.now → ⊥) → reader.new ≡ reader.old }
    // Words that name no command print nothing on `out`, and the usage on `err`, or a beginning of it where a write failed.
    ensures silent { NamesNone words.now → out.new ≡ out.old }
    ensures usage { NamesNone words.now → IsUsageShown result (E.contents err.old.inner) (E.contents err.new.inner) err.old.failures err.new.failures }
    // Words that name a command write nothing on `err`, but where the program of `judge` or `verify` is refused; a text is
    // then written there, or a part of it, or nothing.
    ensures quiet { (NamesNone words.now → ⊥) → (NamesFaulty words.now × (result ≡ Status.Refused) → ⊥) → err.new ≡ err.old }
    ensures explained { (NamesNone words.now → ⊥) → IsExplained (E.contents err.old.inner) (E.contents err.new.inner) }
    // A failed read or write is answered where that count went up by one, and in no other case.
    ensures cause { IsCommandEnd result reader.old.failures reader.new.failures out.old.failures out.new.failures }
    // The end of the input is met once at most: no read is made behind it.
    ensures ends { AtMostOneMore reader.old.ends reader.new.ends }
{
    let Some(request) = Request::from_words(words) else {
        return show_usage(err);
    };
    match request.fulfil_aloud(alloc, reader, out, err) {
        Ok(status) => status,
        Err(error) => Status::of_error(error),
    }
}
