//! Objects and their members. Every error is want of memory, and leaves a part of what was to be written.
ghost use Rattle.std.specs.Prelude.{◌≡◌, map, flat_map, OnOk};
ghost use Rattle.answers.specs.Members.{field_of};
ghost use Rattle.answers.specs.Texts.{object_of};
ghost use Rattle.answers.specs.Writing.{Adds, tokens_of, field_tokens};

use json::Writer;
use std::alloc::AllocError;

/// A member of an object: its key, and its value.
#[derive(Clone, Copy)]
pub(crate) enum Member<'a> {
    Text(&'a str, &'a str),
    Count(&'a str, u64),
    /// A rate in whole percent, or -1 where there is none.
    Rate(&'a str, Option<u64>),
}

fn put_member(out: &mut Writer, member: &Member<'_>) -> Result<(), AllocError>
    ensures { OnOk result (Adds (field_tokens (field_of member.now)) out.old out.new) }
{
    match *member {
        Member::Text(key, text) => {
            out.key(key)?;
            out.string(text)
        }
        Member::Count(key, count) => {
            out.key(key)?;
            out.u64(count)
        }
        Member::Rate(key, Some(percent)) => {
            out.key(key)?;
            out.u64(percent)
        }
        Member::Rate(key, None) => {
            out.key(key)?;
            out.i64(-1)
        }
    }
}

/// Writes members of an object.
pub(crate) fn put_members(out: &mut Writer, members: &[Member<'_>]) -> Result<(), AllocError>
    ensures { OnOk result (Adds (flat_map field_tokens (map field_of members.now)) out.old out.new) }
{
    for member in members {
        put_member(out, member)?;
    }
    Ok(())
}

/// Writes an object of these members.
pub(crate) fn put_object(out: &mut Writer, members: &[Member<'_>]) -> Result<(), AllocError>
    ensures { OnOk result (Adds (tokens_of (object_of (map field_of members.now))) out.old out.new) }
{
    out.begin_object()?;
    put_members(out, members)?;
    out.end_object()
}
