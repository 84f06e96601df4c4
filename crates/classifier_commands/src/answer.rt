//! The answers of `judge` and `verify`, and the refusals of all commands, as lines.

use bpf_asm::AsmError;
use bpf_decode::DecodeError;
use bpf_profile::Verdict;
use refusals::{RefusalNumber, RefusalText};
use std::fmt;
use texts::verdict_name;
use verifier::Refusal;

/// Why a command is refused.
#[derive(Clone, Copy)]
pub struct CommandRefusal {
    /// The refusal.
    pub number: RefusalNumber,
    /// The slot of a program's fault, from 0 to 4,095, or the line of a text's, from 1 on; 0 where the
    /// refusal has none.
    pub place: usize,
}

/// What a command answers, and prints as a line.
#[derive(Clone, Copy)]
pub enum Answer {
    /// A program judged an outcome.
    Judged {
        verdict: Verdict,
        /// How many instructions were executed.
        steps: u32,
        /// How many instructions the program executes at most.
        budget: u32,
    },
    /// A program was verified.
    Accepted {
        /// How many instructions the program executes at most.
        budget: u32,
        /// How many slots the program has.
        slots: usize,
    },
    /// The command was refused.
    Refused(CommandRefusal),
}

impl From<RefusalNumber> for CommandRefusal {
    ghost use Rattle.std.specs.Prelude.{◌≡◌};

    ghost from_gives = { λ number e. e ≡ record { number = number; place = 0 } };

    /// A refusal that has no place.
    fn from(number: RefusalNumber) -> CommandRefusal {
        CommandRefusal { number, place: 0 }
    }
}

impl From<Refusal> for CommandRefusal {
    ghost use Rattle.std.specs.Prelude.{◌≡◌};

    ghost from_gives = { λ refusal e. e ≡ record { number = refusal.number; place = refusal.slot } };

    fn from(refusal: Refusal) -> CommandRefusal {
        CommandRefusal {
            number: refusal.number,
            place: refusal.slot as usize,
        }
    }
}

impl From<DecodeError> for CommandRefusal {
    ghost use Rattle.std.specs.Prelude.{◌≡◌};

    ghost from_gives = { λ error e. e ≡ record { number = error.number; place = error.slot } };

    fn from(error: DecodeError) -> CommandRefusal {
        CommandRefusal {
            number: error.number,
            place: error.slot as usize,
        }
    }
}

impl From<AsmError> for CommandRefusal {
    ghost use Rattle.std.specs.Prelude.{◌≡◌};

    ghost from_gives = { λ error e. e ≡ record { number = error.kind; place = error.line } };

    fn from(error: AsmError) -> CommandRefusal {
        CommandRefusal {
            number: error.kind,
            place: error.line,
        }
    }
}

impl fmt::Display for CommandRefusal {
    ghost use Rattle.std.specs.Prelude.{Some};
    ghost use Rattle.refusals.specs.Texts.{refusal_text};

    ghost output = { λ fault. Some (refusal_text fault.number fault.place) };

    fn fmt<W: fmt::Write>(&self, f: &mut fmt::Formatter<W>) -> fmt::Result {
        let shown = RefusalText {
            number: self.number,
            place: self.place,
        };
        write!(f, "{shown}")
    }
}

impl fmt::Display for Answer {
    ghost use Rattle.std.specs.Prelude.{Some};
    ghost use Rattle.classifier_commands.specs.Text.{answer_text};

    ghost output = { λ answer. Some (answer_text answer) };

    fn fmt<W: fmt::Write>(&self, f: &mut fmt::Formatter<W>) -> fmt::Result {
        match self {
            Answer::Judged {
                verdict,
                steps,
                budget,
            } => {
                let verdict = verdict_name(*verdict);
                write!(f, "{verdict} steps={steps} budget={budget}")
            }
            Answer::Accepted { budget, slots } => {
                write!(f, "accepted budget={budget} slots={slots}")
            }
            Answer::Refused(fault) => write!(f, "{fault}"),
        }
    }
}
