//! Each call of a desk once, by its own name and as a front asks for it.
ghost use Rattle.std.specs.Prelude.{◌≡◌};

use crate::callers::Caller;
use crate::checks::{is_true_at, same};
use crate::fixtures::{close, open_desk, seat_of};
use book::Reply;
use refusals::RefusalNumber;
use service::{OpenGate, Response};
use slot_desk::ServiceId;
use std::alloc::Global;
use std::process::Abort;
use std::sync::Wait;
use worked_histories::{EACH_CALL, Step, asked, is_answered};

/// Makes a call of the first service by its name.
fn make<R: Wait + Abort>(rt: &R, alloc: Global, caller: &mut Caller<'_>, step: Step<'_>) -> Response
    ensures { caller.new ≡ caller.old }
{
    match step {
        Step::Call(moment, wish, _) => {
            Response::Reply(caller.call(rt, alloc, "pay", moment, wish, &OpenGate))
        }
        Step::Stands(moment, _) => Response::Reading(caller.read(rt, "pay", moment)),
        Step::Page(from, _) => Response::Page {
            from,
            entries: caller.page(rt, "pay", from),
        },
        Step::Roll(last, _) => Response::HandedOut(caller.roll(rt, "pay", last)),
        Step::Cut(_) => { Response::HandedOut(caller.cut(rt, "pay").expect(rt, "no open tickets")) }
        _ => Response::Reply(Reply::Refused(RefusalNumber::Stranger)),
    }
}

/// Goes through steps at the first service, each by the call of its own name.
fn make_each<R: Wait + Abort>(rt: &R, alloc: Global, caller: &mut Caller<'_>, steps: &[Step<'_>])
    ensures { caller.new ≡ caller.old }
{
    for step in steps {
        is_met(rt, &make(rt, alloc, caller, *step), *step);
    }
}

/// Goes through steps at the second service, and asks as a front does.
fn ask_for_each<R: Wait + Abort>(rt: &R, alloc: Global, caller: &mut Caller<'_>, steps: &[Step<'_>])
    ensures { caller.new ≡ caller.old }
{
    for step in steps {
        let (moment, request) = asked(alloc, *step).expect(rt, "a request");
        let response = caller.ask(rt, alloc, "ship", moment, request, &OpenGate);
        is_met(rt, &response, *step);
    }
}

/// What comes of a step is what is wanted.
fn is_met<R: Abort>(rt: &R, response: &Response, step: Step<'_>) {
    let answered = is_answered(response, step);
    is_true_at(rt, answered.is_ok(), answered);
}

#[test]
fn all_calls_are_answered(rt: HostRuntime) {
    let rt = &rt;
    let alloc = rt.alloc();
    let mut desk = open_desk(rt, alloc, &["pay", "ship"]);
    same(rt, desk.find("pay"), Some(ServiceId::at(0)));
    same(rt, desk.find("ship"), Some(ServiceId::at(1)));
    same(rt, desk.find("shi"), None);
    let seat = seat_of(rt, alloc, &mut desk);
    let mut caller = Caller::new(&desk, seat);
    make_each(rt, alloc, &mut caller, EACH_CALL);
    same(rt, caller.count(), 8);
    ask_for_each(rt, alloc, &mut caller, EACH_CALL);
    same(rt, caller.count(), 16);
    let seats = Vec::from_array(alloc, [caller.into_seat()]).expect(rt, "ample memory");
    same(rt, close(rt, alloc, desk, seats).len(), 2);
}
