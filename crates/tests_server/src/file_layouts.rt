//! The layouts of the record that files name for their services.
use crate::checks::same_at;
use crate::service_files::{read, told};
use std::alloc::Global;
use std::process::Abort;

/// A file whose one service has these keys behind its name.
fn file_with(rt: &impl Abort, alloc: Global, keys: &str) -> String {
    format!(in alloc;
        "{{\"listen\":\"127.0.0.1:1\",\"workers\":1,\"connections\":1,\"services\":[{{\"name\":\"pay\"{keys}}}]}}"
    ).expect(rt, "ample memory")
}

/// The number of the layout of the first service's program, and its budget.
fn program_of(rt: &impl Abort, alloc: Global, keys: &str) -> Option<(u64, u32)> {
    let settings = read(rt, alloc, &file_with(rt, alloc, keys))?;
    let service = settings.services.first()?;
    Some((service.program.layout().number(), service.program.budget()))
}

/// Keys of a service, and its program.
type Programmed<'a> = (&'a str, Option<(u64, u32)>);

/// Services have these programs.
fn are_programs(rt: &impl Abort, alloc: Global, rows: &[Programmed<'_>]) {
    for row in rows {
        let (keys, wanted) = *row;
        same_at(rt, program_of(rt, alloc, keys), wanted, keys);
    }
}

#[test]
fn programs_are_verified_for_their_layout(rt: HostRuntime) {
    are_programs(
        &rt,
        rt.alloc(),
        &[
            ("", Some((1, 6))),
            (",\"layout\":1", Some((1, 6))),
            (",\"layout\":2", Some((2, 6))),
            (
                ",\"program\":\"b701000040000000 8500000002000000 7700000007000000 9500000000000000\"",
                None,
            ),
            (
                ",\"program\":\"b701000040000000 8500000002000000 7700000007000000 9500000000000000\",\"layout\":1",
                None,
            ),
            (
                ",\"program\":\"b701000040000000 8500000002000000 7700000007000000 9500000000000000\",\"layout\":2",
                Some((2, 4)),
            ),
            (
                ",\"layout\":2,\"config\":{},\"program\":\"b700000001000000 9500000000000000\"",
                Some((2, 2)),
            ),
            (",\"layout\":0", None),
            (",\"layout\":3", None),
            (",\"layout\":\"2\"", None),
            (",\"layout\":null", None),
            (",\"layout\":2.0", None),
            (",\"layout\":-1", None),
            (",\"layout\":[2]", None),
            (",\"Layout\":2", None),
        ],
    );
}

/// Keys of a service, and what is wrong with them.
type Mistaken<'a> = (&'a str, &'a str);

/// What is wrong with services is told so.
fn are_told(rt: &impl Abort, alloc: Global, rows: &[Mistaken<'_>]) {
    for row in rows {
        let (keys, wanted) = *row;
        let text = file_with(rt, alloc, keys);
        let mistake = told(rt, alloc, &text).err();
        same_at(rt, mistake.as_deref(), Some(wanted), keys);
    }
}

#[test]
fn mistakes_of_layouts_are_told(rt: HostRuntime) {
    are_told(
        &rt,
        rt.alloc(),
        &[
            (
                ",\"layout\":3",
                "services[0].layout: 3 is not the whole number 1 or 2",
            ),
            (
                ",\"layout\":\"2\"",
                "services[0].layout: \"2\" is not the whole number 1 or 2",
            ),
            (
                ",\"layout\":2.0,\"program\":7",
                "services[0].layout: 2.0 is not the whole number 1 or 2",
            ),
            (
                ",\"layout\":{}",
                "services[0].layout: an object is not the whole number 1 or 2",
            ),
            (
                ",\"layouts\":2",
                "services[0].layouts: there is no such key; the keys are name, config, program, layout, journal and maxTicketAge",
            ),
            (
                ",\"program\":\"b701000040000000 8500000002000000 7700000007000000 9500000000000000\"",
                "services[0].program: refused 21 HelperArgument slot 1",
            ),
            (
                ",\"layout\":2,\"program\":\"7910c00000000000 9500000000000000\"",
                "services[0].program: refused 16 OutOfBounds slot 0",
            ),
        ],
    );
}
