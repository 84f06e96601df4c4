//! The layout that the query of a request names.
ghost use Rattle.std.specs.Prelude.{◌≡◌};
ghost use Rattle.http_front.specs.Layouts.{names_no_other, names_only, layout_in};

use bpf_profile::Layout;
use refusals::RefusalNumber;

/// Whether a part of a query names a layout by this text, or names none.
fn names_no_other(text: &[u8], part: &[u8]) -> bool
    ensures { result ≡ names_no_other text.now part.now }
{
    !part.starts_with(b"layout=") || part == text
}

/// Whether each part of a query that names a layout is this text.
fn names_only(query: &[u8], text: &[u8]) -> bool
    ensures { result ≡ names_only query.now text.now }
{
    query
        .split(|byte| *byte == b'&')
        .all(|part| names_no_other(text, part))
}

/// The layout that a query names. The parts of a query stand between ampersands; one that begins with
/// `layout=` names a layout, and the others are ignored. Where no part names one, it is layout 1. The
/// refusal is `BadValue`, where a part names something else than 1 or 2, or two parts name different layouts.
pub(crate) fn layout_in(query: &[u8]) -> Result<Layout, RefusalNumber>
    ensures { result ≡ layout_in query.now }
{
    if names_only(query, b"layout=1") {
        Ok(Layout::One)
    } else if names_only(query, b"layout=2") {
        Ok(Layout::Two)
    } else {
        Err(RefusalNumber::BadValue)
    }
}
