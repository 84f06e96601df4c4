//! Calls that are interrupted, would have to wait, or fail.
use crate::checks::same;
use crate::streams::{Interrupted, Slow};
use counted_io::{Halves, Polling, Wire};
use std::alloc::Global;

/// A stream each of whose directions is interrupted so often.
fn interrupted(
    alloc: Global,
    times: u64,
) -> Wire<Halves<Interrupted<&'static [u8]>, Interrupted<Vec<u8>>>> {
    Wire::new(Halves {
        reader: Interrupted {
            inner: b"ab".as_slice(),
            times,
        },
        writer: Interrupted {
            inner: Vec::new(alloc),
            times,
        },
    })
}

/// A stream that would have to wait at each call but every second one, and gives and takes two bytes at most.
fn slow(alloc: Global) -> Wire<Halves<Slow<&'static [u8]>, Slow<Vec<u8>>>> {
    Wire::new(Halves {
        reader: Slow::new(b"abc".as_slice(), 2),
        writer: Slow::new(Vec::new(alloc), 2),
    })
}

#[test]
fn interrupted_reads_are_tried_again(rt: HostRuntime) {
    let rt = &rt;
    let mut piece = [0; 4];
    let mut fifteen = interrupted(rt.alloc(), 15);
    same(rt, fifteen.take(&mut piece), Polling::Done(2));
    same(rt, fifteen.failures(), (0, 0));
    same(rt, fifteen.take(&mut piece), Polling::Done(0));
    same(rt, fifteen.ends(), 1);
    let mut sixteen = interrupted(rt.alloc(), 16);
    same(rt, sixteen.take(&mut piece), Polling::Failed);
    same(rt, sixteen.failures(), (1, 0));
    same(rt, sixteen.take(&mut piece), Polling::Done(2));
}

#[test]
fn interrupted_writes_are_tried_again(rt: HostRuntime) {
    let rt = &rt;
    let mut fifteen = interrupted(rt.alloc(), 15);
    same(rt, fifteen.put(b"ab"), Polling::Done(2));
    same(rt, fifteen.failures(), (0, 0));
    let mut sixteen = interrupted(rt.alloc(), 16);
    same(rt, sixteen.put(b"ab"), Polling::Failed);
    same(rt, sixteen.failures(), (0, 1));
    same(rt, sixteen.put(b"ab"), Polling::Done(2));
    let halves = sixteen.into_inner();
    same(rt, halves.writer.inner.as_slice(), b"ab".as_slice());
}

#[test]
fn reads_that_wait_are_no_failures(rt: HostRuntime) {
    let mut piece = [0; 4];
    let mut wire = slow(rt.alloc());
    for wanted in &[
        Polling::Waits,
        Polling::Done(2),
        Polling::Waits,
        Polling::Done(1),
    ] {
        same(&rt, wire.take(&mut piece), *wanted);
    }
    same(
        &rt,
        (wire.failures(), wire.waits(), wire.ends()),
        ((0, 0), (2, 0), 0),
    );
}

#[test]
fn writes_that_wait_are_no_failures(rt: HostRuntime) {
    let mut wire = slow(rt.alloc());
    same(&rt, wire.put(b"abc"), Polling::Waits);
    same(&rt, wire.put(b"abc"), Polling::Done(2));
    same(
        &rt,
        (wire.failures(), wire.waits(), wire.ends()),
        ((0, 0), (0, 1), 0),
    );
}
