//! Pages of the journal. Every error is want of memory, and leaves a part of what was to be written.
ghost use Rattle.std.specs.Prelude.{◌≡◌, ◌∷◌, map, OnOk};
ghost use Rattle.json.specs.Token.{begin_array};
ghost use Rattle.serde_json.specs.Data.{array};
ghost use Rattle.serde_json.specs.View.{items_of};
ghost use Rattle.answers.specs.Entries.{entry_data};
ghost use Rattle.answers.specs.Pages.{next_number, page_data};
ghost use Rattle.answers.specs.Writing.{Adds, tokens_of};

use crate::entries::entry;
use crate::members::{Member, put_members};
use book::Entry;
use json::Writer;
use std::alloc::AllocError;

/// The number from which the next page goes on.
fn next_number(lines: &[Entry], from: u64) -> u64
    ensures { result ≡ next_number lines.now from }
{
    match lines.last() {
        Some(line) => line.number().saturating_add(1),
        None => from,
    }
}

/// Writes each entry, in order.
fn put_entries(out: &mut Writer, lines: &[Entry]) -> Result<(), AllocError>
    ensures { OnOk result (Adds (tokens_of (array (items_of (map entry_data lines.now)))) out.old out.new) }
{
    out.begin_array()?;
    for line in lines {
        entry(out, line)?;
    }
    out.end_array()
}

/// A page of the journal: its entries, and the number from which the next page goes on, which is one more than that of
/// the last entry, or `from` where there is no entry.
pub(crate) fn page(out: &mut Writer, lines: &[Entry], from: u64) -> Result<(), AllocError>
    ensures { OnOk result (Adds (tokens_of (page_data lines.now from)) out.old out.new) }
{
    out.begin_object()?;
    out.key("entries")?;
    put_entries(out, lines)?;
    put_members(out, &[Member::Count("next", next_number(lines, from))])?;
    out.end_object()
}
