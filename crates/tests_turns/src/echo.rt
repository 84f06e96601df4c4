//! A responder, a clock, and serving an input turn by turn or by `serve`.
use counted_io::{Counted, Stream, Wire};
use http_connection::{
    Clock, Connection, Ended, HttpRequest, Intake, Responder, Turned, serve, turn,
};
use http_messages::Fault;
use std::alloc::{AllocError, Global};
use std::process::Abort;
use std::sync::Wait;

/// How often it was asked.
#[derive(Drop)]
pub(crate) struct Asked {
    pub(crate) times: u64,
}

/// Answers with the target and the body.
#[derive(Drop)]
pub(crate) struct Echo;

impl Responder<Asked> for Echo {
    ghost use Rattle.std.specs.Prelude.{◌≡◌, ◌++◌, codes};

    ghost refusal = { λ fault. codes "refused\n" };

    ghost responds = { λ old moment request text new. text ≡ request.target ++ request.body ++ codes "\n" };

    fn refuse(&self, _fault: Fault, text: &mut Vec<u8>) -> Result<(), AllocError> {
        text.clear();
        text.extend_from_slice(b"refused\n")
    }

    fn respond(
        &self,
        state: &mut Asked,
        _moment: u64,
        request: &HttpRequest<'_>,
        text: &mut Vec<u8>,
    ) -> Result<(), AllocError> {
        state.times = state.times.saturating_add(1);
        text.clear();
        text.extend_from_slice(request.target)?;
        text.extend_from_slice(request.body)?;
        text.extend_from_slice(b"\n")
    }
}

/// How often it was read.
#[derive(Drop)]
pub(crate) struct Readings {
    pub(crate) times: u64,
}

impl Clock for Readings {
    ghost use Rattle.std.specs.Prelude.{◌≡◌};

    ghost ticks = { λ old moment new. moment ≡ new.times };

    fn now_ms(&mut self) -> u64 {
        self.times = self.times.saturating_add(1);
        self.times
    }
}

/// What came of serving an input: what was written, how it ended, and how often the responder was asked and the clock
/// read.
#[derive(Drop)]
pub(crate) struct Outcome {
    pub(crate) text: Vec<u8>,
    pub(crate) ended: Option<Ended>,
    pub(crate) asked: u64,
    pub(crate) readings: u64,
}

/// How many turns a connection gets at most.
const MOST_TURNS: u32 = 100_000;

/// Gives a new connection turns until it ends.
pub(crate) fn play<T: Stream>(
    rt: &impl Abort,
    alloc: Global,
    wire: &mut Wire<T>,
) -> (Option<Ended>, u64, u64) {
    let mut intake = Intake::new(alloc).expect(rt, "ample memory");
    let mut connection = Connection::new(alloc);
    let mut asked = Asked { times: 0 };
    let mut clock = Readings { times: 0 };
    'turns: for _ in 0..MOST_TURNS {
        let turned = turn(
            &mut connection,
            &mut intake,
            wire,
            &Echo,
            &mut asked,
            &mut clock,
        );
        if let Turned::Ended(ended) = turned {
            return (Some(ended), asked.times, clock.times);
        }
    }
    (None, asked.times, clock.times)
}

/// What `serve` comes to over the whole input.
pub(crate) fn by_serve(rt: &(impl Wait + Abort), alloc: Global, input: &[u8]) -> Outcome {
    let mut reader = Counted::new(input);
    let mut writer = Counted::new(Vec::new(alloc));
    let mut asked = Asked { times: 0 };
    let mut clock = Readings { times: 0 };
    let ended = serve(
        rt,
        alloc,
        &mut reader,
        &mut writer,
        &Echo,
        &mut asked,
        &mut clock,
    );
    Outcome {
        text: writer.into_inner(),
        ended: Some(ended),
        asked: asked.times,
        readings: clock.times,
    }
}
