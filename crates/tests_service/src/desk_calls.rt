//! Each call of a desk once, by its own name.
use crate::checks::{is_true_at, same};
use crate::desk_fixtures::{Scene, ask, play_at_a_desk};
use book::{ConfigParts, Reply};
use desk::{Desk, Offered, Seat};
use refusals::RefusalNumber;
use service::{OpenGate, Response};
use std::alloc::Global;
use std::process::Abort;
use std::sync::Wait;
use std::sync::ledger::Ledger;
use worked_histories::{EACH_CALL, Step, is_answered};

/// One seat makes each call.
pub(crate) fn make_each_call<L: Ledger, M: Ledger + Offered, R: Wait + Abort>(
    rt: &R,
    alloc: Global,
    desk: Desk<L, M>,
) {
    let mut desk = desk;
    let mut seat = desk.sit().expect(rt, "a first seat");
    make_each(rt, alloc, &desk, &mut seat, EACH_CALL);
    same(rt, seat.count(), 8);
}

/// Goes through steps, each by the call of its own name.
fn make_each<L: Ledger, M: Ledger + Offered, R: Wait + Abort>(
    rt: &R,
    alloc: Global,
    desk: &Desk<L, M>,
    seat: &mut Seat<L, M>,
    steps: &[Step<'_>],
) {
    for (index, step) in steps.iter().enumerate() {
        let answered = is_answered(&make(rt, alloc, desk, seat, *step), *step);
        is_true_at(rt, answered.is_ok(), (index, answered));
    }
}

/// Makes a call by its name.
fn make<L: Ledger, M: Ledger + Offered, R: Wait + Abort>(
    rt: &R,
    alloc: Global,
    desk: &Desk<L, M>,
    seat: &mut Seat<L, M>,
    step: Step<'_>,
) -> Response {
    let service = desk.find("pay").expect(rt, "a service of the desk");
    match step {
        Step::Call(moment, wish, _) => {
            Response::Reply(ask(rt, alloc, desk, seat, "pay", moment, wish, &OpenGate))
        }
        Step::Stands(moment, _) => Response::Reading(desk.read(rt, seat, service, moment)),
        Step::Page(from, _) => Response::Page {
            from,
            entries: desk
                .page(rt, seat, service, from)
                .expect(rt, "ample memory"),
        },
        Step::Roll(last, _) => Response::HandedOut(
            desk.roll(rt, seat, service, last)
                .expect(rt, "ample memory"),
        ),
        Step::Cut(_) => Response::HandedOut(
            desk.cut(rt, seat, service).expect(rt, "no open tickets"),
        ),
        _ => Response::Reply(Reply::Refused(RefusalNumber::Stranger)),
    }
}

#[test]
fn each_call_has_a_name(rt: HostRuntime) {
    play_at_a_desk(
        &rt,
        rt.alloc(),
        &["pay"],
        ConfigParts::DEFAULT,
        Scene::EachCall,
    );
}
