//! Answers as JSON values. Every error is want of memory, and leaves a part of what was to be written.
ghost use Rattle.std.specs.Prelude.{◌≡◌, OnOk};
ghost use Rattle.service_profile.specs.declared.replies.Reply.TheVariants as replied;
ghost use Rattle.answers.specs.Texts.{refusal_data, program_refusal_data, handed_out_data, reply_data, reading_data};
ghost use Rattle.answers.specs.Writing.{Adds, tokens_of};

use crate::members::{Member, put_object};
use crate::names::{fate_name, state_name};
use book::{Fate, Reading, Reply, State};
use bpf_profile::{Layout, Verdict};
use json::Writer;
use refusals::RefusalNumber;
use std::alloc::AllocError;
use texts::verdict_name;
use verifier::Refusal;

fn refusal(out: &mut Writer, number: RefusalNumber) -> Result<(), AllocError>
    ensures { OnOk result (Adds (tokens_of (refusal_data number)) out.old out.new) }
{
    put_object(
        out,
        &[
            Member::Count("error", u64::from(number.number())),
            Member::Text("name", number.name()),
        ],
    )
}

pub(crate) fn program_refusal(out: &mut Writer, refusal: Refusal) -> Result<(), AllocError>
    ensures { OnOk result (Adds (tokens_of (program_refusal_data refusal)) out.old out.new) }
{
    put_object(
        out,
        &[
            Member::Count("error", u64::from(refusal.number.number())),
            Member::Text("name", refusal.number.name()),
            Member::Count("slot", u64::from(refusal.slot)),
        ],
    )
}

pub(crate) fn handed_out(out: &mut Writer, count: u64) -> Result<(), AllocError>
    ensures { OnOk result (Adds (tokens_of (handed_out_data count)) out.old out.new) }
{
    put_object(out, &[Member::Count("entries", count)])
}

fn permitted(out: &mut Writer, ticket: u64, version: u64, state: State) -> Result<(), AllocError>
    ensures { OnOk result (Adds (tokens_of (reply_data (replied.Permitted ticket version state))) out.old out.new) }
{
    put_object(
        out,
        &[
            Member::Text("state", state_name(state)),
            Member::Count("ticket", ticket),
            Member::Count("version", version),
        ],
    )
}

fn finished(
    out: &mut Writer,
    fate: Fate,
    verdict: Verdict,
    steps: u32,
    version: u64,
    state: State,
) -> Result<(), AllocError>
    ensures { OnOk result (Adds (tokens_of (reply_data (replied.Finished fate verdict steps version state))) out.old out.new) }
{
    put_object(
        out,
        &[
            Member::Text("fate", fate_name(fate)),
            Member::Text("state", state_name(state)),
            Member::Count("steps", u64::from(steps)),
            Member::Text("verdict", verdict_name(verdict)),
            Member::Count("version", version),
        ],
    )
}

fn released(out: &mut Writer, state: State) -> Result<(), AllocError>
    ensures { OnOk result (Adds (tokens_of (reply_data (replied.Released state))) out.old out.new) }
{
    put_object(
        out,
        &[
            Member::Text("fate", "released"),
            Member::Text("state", state_name(state)),
        ],
    )
}

fn installed(out: &mut Writer, version: u64, budget: u32, layout: Layout) -> Result<(), AllocError>
    ensures { OnOk result (Adds (tokens_of (reply_data (replied.Installed version budget layout))) out.old out.new) }
{
    let budget = u64::from(budget);
    match layout {
        Layout::One => put_object(
            out,
            &[
                Member::Count("budget", budget),
                Member::Count("version", version),
            ],
        ),
        Layout::Two => put_object(
            out,
            &[
                Member::Count("budget", budget),
                Member::Count("layout", 2),
                Member::Count("version", version),
            ],
        ),
    }
}

fn moved(out: &mut Writer, state: State, period: u64) -> Result<(), AllocError>
    ensures { OnOk result (Adds (tokens_of (reply_data (replied.Moved state period))) out.old out.new) }
{
    put_object(
        out,
        &[
            Member::Count("period", period),
            Member::Text("state", state_name(state)),
        ],
    )
}

pub(crate) fn reply(out: &mut Writer, reply: Reply) -> Result<(), AllocError>
    ensures { OnOk result (Adds (tokens_of (reply_data reply)) out.old out.new) }
{
    match reply {
        Reply::Refused(number) => refusal(out, number),
        Reply::Permitted {
            ticket,
            version,
            state,
        } => permitted(out, ticket, version, state),
        Reply::Finished {
            fate,
            verdict,
            steps,
            version,
            state,
        } => finished(out, fate, verdict, steps, version, state),
        Reply::Released { state } => released(out, state),
        Reply::Installed {
            version,
            budget,
            layout,
        } => installed(out, version, budget, layout),
        Reply::Moved { state, period } => moved(out, state, period),
    }
}

pub(crate) fn reading(out: &mut Writer, reading: &Reading) -> Result<(), AllocError>
    ensures { OnOk result (Adds (tokens_of (reading_data reading.now)) out.old out.new) }
{
    put_object(
        out,
        &[
            Member::Count("budget", u64::from(reading.budget)),
            Member::Count("entries", reading.entries),
            Member::Count("failed", reading.failed),
            Member::Rate("failureRate", reading.failure_rate),
            Member::Count("free", reading.free),
            Member::Count("notPermitted", reading.not_permitted),
            Member::Count("open", reading.open_tickets),
            Member::Count("period", reading.period),
            Member::Count("slow", reading.slow),
            Member::Rate("slowRate", reading.slow_rate),
            Member::Text("state", state_name(reading.state)),
            Member::Count("total", reading.total),
            Member::Count("version", reading.version),
        ],
    )
}
