//! Which calls a replay makes of its reader: one for each byte and one for the end, and none behind a first line that is
//! refused. Clauses say how often the end is met; that each byte has a call of its own none says.
use crate::checks::same_at;
use counted_io::Counted;
use replay::{ReplayEnded, replay};
use std::alloc::Global;
use std::io;
use std::io::Read;
use std::process::Abort;

/// A reader that counts its calls.
#[derive(Drop)]
struct Watched<'a> {
    left: &'a [u8],
    /// All calls.
    calls: usize,
    /// Those that found the end.
    ends: usize,
}

impl<'a> Read for Watched<'a> {
    fn read(&mut self, room: &mut [u8]) -> io::Result<usize> {
        self.calls = self.calls.wrapping_add(1);
        let count = self.left.read(room)?;
        if count == 0 {
            self.ends = self.ends.wrapping_add(1);
        }
        Ok(count)
    }
}

/// How a replay ends, how many calls its reader had, how many of them found the end, and how many bytes are left.
fn reads(alloc: Global, input: &[u8]) -> (Option<ReplayEnded>, usize, usize, usize) {
    let mut reader = Counted::new(Watched {
        left: input,
        calls: 0,
        ends: 0,
    });
    let mut out = Counted::new(Vec::new(alloc));
    let ended = replay(alloc, &mut reader, &mut out).ok();
    let Watched { left, calls, ends } = reader.into_inner();
    (ended, calls, ends, left.len())
}

/// An input, how its replay ends, how many of its bytes are read, and how often its end is.
type Reading = (&'static str, ReplayEnded, usize, usize);

/// Checks that each byte is read by a call, and nothing else.
fn are_read(rt: &impl Abort, alloc: Global, rows: &[Reading]) {
    for row in rows {
        let (input, ended, taken, ends) = *row;
        let wanted = (
            Some(ended),
            taken.wrapping_add(ends),
            ends,
            input.len().wrapping_sub(taken),
        );
        same_at(rt, reads(alloc, input.as_bytes()), wanted, input);
    }
}

#[test]
fn the_end_is_read_once(rt: HostRuntime) {
    are_read(
        &rt,
        rt.alloc(),
        &[
            ("", ReplayEnded::BadConfig, 0, 1),
            ("\n \n", ReplayEnded::BadConfig, 3, 1),
            ("[]", ReplayEnded::BadConfig, 2, 1),
            ("{}\n", ReplayEnded::Done, 3, 1),
            (
                "{}\n{\"at\":1,\"do\":\"reset\"}\n\n",
                ReplayEnded::Done,
                26,
                1,
            ),
            // The last line has no line feed.
            ("{}", ReplayEnded::Done, 2, 1),
            ("{}\n{\"at\":1,\"do\":\"reset\"}", ReplayEnded::Done, 24, 1),
            ("{}\n  ", ReplayEnded::Done, 5, 1),
            (" ", ReplayEnded::BadConfig, 1, 1),
        ],
    );
}

#[test]
fn nothing_is_read_behind_a_refused_configuration(rt: HostRuntime) {
    are_read(
        &rt,
        rt.alloc(),
        &[
            ("[]\n", ReplayEnded::BadConfig, 3, 0),
            (
                "[]\n{\"at\":1,\"do\":\"reset\"}\n",
                ReplayEnded::BadConfig,
                3,
                0,
            ),
            ("\n \nx\n{}\n", ReplayEnded::BadConfig, 5, 0),
            (
                "{\"maxWaitDuration\":5}\n{}\n",
                ReplayEnded::BadConfig,
                22,
                0,
            ),
        ],
    );
}
