//! Which layouts of the record JSON objects name.
use crate::checks::same_at;
use bpf_profile::Layout;
use requests::layout;
use std::alloc::Global;
use std::process::Abort;
use texts::json;

/// The layout in a text.
fn layout_in(rt: &impl Abort, alloc: Global, text: &str) -> Option<Layout> {
    let value = json(alloc, text.as_bytes())
        .expect(rt, "ample memory")
        .expect(rt, "JSON");
    layout(&value)
}

/// Checks which layouts are read. Each row is a text and the layout in it.
fn are_layouts(rt: &impl Abort, alloc: Global, rows: &[(&str, Option<Layout>)]) {
    for row in rows {
        let (text, wanted) = *row;
        same_at(rt, layout_in(rt, alloc, text), wanted, &text);
    }
}

#[test]
fn layouts_are_read(rt: HostRuntime) {
    are_layouts(
        &rt,
        rt.alloc(),
        &[
            ("{}", Some(Layout::One)),
            ("{\"layouts\":2}", Some(Layout::One)),
            ("{\"layout\":1}", Some(Layout::One)),
            ("{\"layout\":2}", Some(Layout::Two)),
            ("{\"layout\":1,\"layout\":2}", Some(Layout::Two)),
            ("{\"layout\":0}", None),
            ("{\"layout\":3}", None),
            ("{\"layout\":18446744073709551617}", None),
            ("{\"layout\":-1}", None),
            ("{\"layout\":2.0}", None),
            ("{\"layout\":\"2\"}", None),
            ("{\"layout\":null}", None),
            ("{\"layout\":true}", None),
            ("{\"layout\":{}}", None),
            ("{\"layout\":[2]}", None),
        ],
    );
}
