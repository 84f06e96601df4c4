//! The entries of the journal. Every error is want of memory, and leaves a part of what was to be written.
ghost use Rattle.std.specs.Prelude.{◌≡◌, OnOk};
ghost use Rattle.book.specs.Accepted.{seen};
ghost use Rattle.answers.specs.Entries.{entry_data, event_name, named};
ghost use Rattle.answers.specs.Writing.{Adds, tokens_of, last_tokens};

use crate::members::{Member, put_members};
use crate::names::state_name;
use crate::values::reply;
use book::{Entry, Event};
use json::Writer;
use std::alloc::AllocError;

/// The word for what happened.
fn event_name(event: &Event) -> &'static str
    ensures { result.now ≡ event_name (seen event.now) }
{
    match event {
        Event::Acquire => "acquire",
        Event::Finish(..) => "report",
        Event::Release(_) => "release",
        Event::Install(_) => "install",
        Event::Move(_) => "transition",
        Event::Reset => "reset",
    }
}

/// Writes the ticket or the state that an event names, and ends the entry.
fn end_entry(out: &mut Writer, event: &Event) -> Result<(), AllocError>
    ensures { OnOk result (Adds (last_tokens (named (seen event.now))) out.old out.new) }
{
    match event {
        Event::Finish(_, ticket) | Event::Release(ticket) => {
            put_members(out, &[Member::Count("ticket", *ticket)])?;
        }
        Event::Move(to) => put_members(out, &[Member::Text("to", state_name(*to))])?,
        Event::Acquire | Event::Install(_) | Event::Reset => {}
    }
    out.end_object()
}

/// An entry of the journal: what happened, at which moment in milliseconds, the entry's number, the body of what was
/// answered, who made the event, and the ticket or the state that it names.
pub(crate) fn entry(out: &mut Writer, entry: &Entry) -> Result<(), AllocError>
    ensures { OnOk result (Adds (tokens_of (entry_data entry.now)) out.old out.new) }
{
    out.begin_object()?;
    put_members(
        out,
        &[
            Member::Text("event", event_name(entry.event())),
            Member::Count("moment", entry.moment()),
            Member::Count("number", entry.number()),
        ],
    )?;
    out.key("reply")?;
    reply(out, entry.reply())?;
    put_members(out, &[Member::Count("seat", u64::from(entry.seat()))])?;
    end_entry(out, entry.event())
}
