//! The layout that a JSON object names.
ghost use Rattle.std.specs.Prelude.{◌≡◌};
ghost use Rattle.serde_json.specs.View.{view};
ghost use Rattle.requests.specs.Layouts.{layout_numbered, layout_of};

use crate::values::number_or;
use bpf_profile::Layout;
use serde_json::Value;

fn layout_numbered(number: u64) -> Option<Layout>
    ensures { result ≡ layout_numbered number }
{
    match number {
        1 => Some(Layout::One),
        2 => Some(Layout::Two),
        _ => None,
    }
}

/// The layout of records that a JSON object has under `layout`, beside a program that is written for it: the whole
/// number 1 or 2, and layout 1 where the key is missing. Other keys are ignored. None where another value stands
/// there: the refusal `BadValue`, or `BadConfig` in a file.
pub fn layout(value: &Value) -> Option<Layout>
    ensures { result ≡ layout_of (view value.now) }
{
    layout_numbered(number_or(value, "layout", 1)?)
}
