//! What a wish asks a service for.
use crate::wishes::Wish;
use bpf_profile::Layout;
use helpers::Record;
use packed_outcomes::PackedOutcome;
use service::{Report, Request};
use std::alloc::Global;
use std::sync::Arc;
use verifier::{Refusal, Verified, default_classifier, verify};

/// `mov r0, 2` and `exit`: every outcome is ignored.
const IGNORING: [u8; 16] = [0xb7, 0, 0, 0, 2, 0, 0, 0, 0x95, 0, 0, 0, 0, 0, 0, 0];

/// The record of a response.
pub(crate) fn response(status: u16) -> Option<Record> {
    let mut context = [0u8; 192];
    let [low, high] = status.to_le_bytes();
    context[4] = low;
    context[5] = high;
    Record::from_parts(context, [0; 16], &[])
}

/// The outcome of a response. None is want of memory.
pub fn outcome_of(alloc: Global, status: u16) -> Option<PackedOutcome> {
    PackedOutcome::pack(alloc, &response(status)?).ok()
}

/// The program that ignores every outcome, or the default classifier. The error is want of memory.
pub fn program(alloc: Global, ignoring: bool) -> Result<Verified, Refusal> {
    if ignoring {
        verify(alloc, &IGNORING, Layout::One)
    } else {
        default_classifier(alloc)
    }
}

/// The same program, to be shared. None is want of memory.
pub fn shared_program(alloc: Global, ignoring: bool) -> Option<Arc<Verified>> {
    let program = program(alloc, ignoring).ok()?;
    Arc::new(alloc, program).ok()
}

/// What a wish asks for. None is want of memory.
pub fn request_of(alloc: Global, wish: Wish) -> Option<Request> {
    match wish {
        Wish::Acquire => Some(Request::Acquire),
        Wish::Report(ticket, status) => report_of(alloc, ticket, status),
        Wish::Release(ticket) => Some(Request::Release(ticket)),
        Wish::InstallIgnoring => install_of(alloc, true),
        Wish::InstallDefault => install_of(alloc, false),
        Wish::Move(state) => Some(Request::Move(state)),
        Wish::Reset => Some(Request::Reset),
    }
}

fn report_of(alloc: Global, ticket: u64, status: u16) -> Option<Request> {
    let outcome = outcome_of(alloc, status)?;
    Some(Request::Report(Report { ticket, outcome }))
}

fn install_of(alloc: Global, ignoring: bool) -> Option<Request> {
    Some(Request::Install {
        program: bytes_of(alloc, ignoring)?,
        layout: Layout::One,
    })
}

fn bytes_of(alloc: Global, ignoring: bool) -> Option<Vec<u8>> {
    let program = program(alloc, ignoring).ok()?;
    program.bytes().to_vec(alloc).ok()
}
