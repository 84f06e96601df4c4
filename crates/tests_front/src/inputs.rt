//! Inputs of replays, made of pieces.
use std::alloc::Global;
use std::process::Abort;

/// These bytes, one piece behind the other.
pub(crate) fn joined(rt: &impl Abort, alloc: Global, pieces: &[&[u8]]) -> Vec<u8> {
    let mut all = Vec::new(alloc);
    for piece in pieces {
        all.extend_from_slice(*piece).expect(rt, "ample memory");
    }
    all
}

/// The same bytes, so many times.
pub(crate) fn repeated(rt: &impl Abort, alloc: Global, bytes: &[u8], times: usize) -> Vec<u8> {
    let mut all = Vec::new(alloc);
    for _ in 0..times {
        all.extend_from_slice(bytes).expect(rt, "ample memory");
    }
    all
}
