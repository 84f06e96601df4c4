//! Calls that may want memory: of a book, over HTTP, in turns, by a seat at a slot, and of the assembler and the verifier. What is refused
//! for want of memory must change nothing, and is tried again. So what is printed is the same whichever
//! single request for memory is refused, but for the last line, which counts the refusals that were met.
//!
//! The input is a number. So many requests for memory come before all others and do nothing, so that one
//! build of the program, of which always the same request is refused, can have each of the others refused:
//! `checks/refused-memory` does that.
#![tactic(auto)]

mod calls;
mod counting;
mod messages;
mod programs;
mod seats;
mod turns;

use calls::ask_a_book;
use counting::{Refusals, number, take_and_give};
use messages::ask_over_http;
use programs::verify_programs;
use seats::ask_by_a_seat;
use std::io;
use std::io::Write;
use turns::ask_in_turns;

fn main(rt: HostRuntime) -> io::Result<()> {
    let alloc = rt.alloc();
    let mut out = rt.stdout();
    let mut refusals = Refusals(0);
    let times = number(&mut rt.stdin())?;
    take_and_give(&mut refusals, alloc, times);
    ask_a_book(&mut refusals, alloc, &mut out)?;
    ask_over_http(&rt, &mut refusals, alloc, &mut out)?;
    ask_in_turns(&mut refusals, alloc, &mut out)?;
    ask_by_a_seat(&rt, &mut refusals, alloc, &mut out)?;
    verify_programs(&mut refusals, alloc, &mut out)?;
    writeln!(out, "refused {}", refusals.0)
}
