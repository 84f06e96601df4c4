//! Two sessions side by side.
use crate::memory::turn_in_memory;
use counted_io::Halves;
use http_connection::{Clock, HttpRequest, Intake, Responder, Session};
use http_messages::Fault;
use std::alloc::{AllocError, Global};
use std::process::Abort;

/// How often it was asked.
#[derive(Drop)]
pub(crate) struct Asked {
    pub(crate) times: u64,
}

/// Answers with the target and the body.
#[derive(Drop)]
pub(crate) struct Echo;

impl Responder<Asked> for Echo {
    ghost use Rattle.std.specs.Prelude.{◌≡◌, ◌++◌, codes};

    ghost refusal = { λ fault. codes "refused\n" };

    ghost responds = { λ old moment request text new. text ≡ request.target ++ request.body ++ codes "\n" };

    fn refuse(&self, _fault: Fault, text: &mut Vec<u8>) -> Result<(), AllocError> {
        text.clear();
        text.extend_from_slice(b"refused\n")
    }

    fn respond(
        &self,
        state: &mut Asked,
        _moment: u64,
        request: &HttpRequest<'_>,
        text: &mut Vec<u8>,
    ) -> Result<(), AllocError> {
        state.times = state.times.saturating_add(1);
        text.clear();
        text.extend_from_slice(request.target)?;
        text.extend_from_slice(request.body)?;
        text.extend_from_slice(b"\n")
    }
}

/// How often it was read.
#[derive(Drop)]
pub(crate) struct Readings {
    pub(crate) times: u64,
}

impl Clock for Readings {
    ghost use Rattle.std.specs.Prelude.{◌≡◌};

    ghost ticks = { λ old moment new. moment ≡ new.times };

    fn now_ms(&mut self) -> u64 {
        self.times = self.times.saturating_add(1);
        self.times
    }
}

/// Gives two sessions a turn each, and answers whether each stream holds its own answers.
fn hold_their_own(rt: &impl Abort, alloc: Global) -> bool {
    let mut intake = Intake::new(alloc).expect(rt, "ample memory");
    let mut one = Session::new(
        alloc,
        Halves {
            reader: b"GET /one HTTP/1.1\r\n\r\n".as_slice(),
            writer: Vec::new(alloc),
        },
    );
    let mut two = Session::new(
        alloc,
        Halves {
            reader: b"GET /two HTTP/1.1\r\n\r\nGET /more HTTP/1.1\r\n\r\n".as_slice(),
            writer: Vec::new(alloc),
        },
    );
    let mut asked = Asked { times: 0 };
    let mut clock = Readings { times: 0 };
    turn_in_memory(&mut two, &mut intake, &Echo, &mut asked, &mut clock);
    turn_in_memory(&mut one, &mut intake, &Echo, &mut asked, &mut clock);
    one.stream().writer.as_slice() == b"/one\n".as_slice()
        && two.stream().writer.as_slice() == b"/two\n/more\n".as_slice()
        && asked.times == 3
}

#[test]
fn each_stream_holds_its_own_answers(rt: HostRuntime) {
    let holds = hold_their_own(&rt, rt.alloc());
    assert!(rt; holds);
}
