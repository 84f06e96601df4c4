//! That a reader which keeps its memory from one JSON text to the next reads of each what `json` reads.
use crate::checks::{is_true_at, same_at};
use std::alloc::Global;
use std::process::Abort;
use texts::{JsonReader, json};

/// The deepest that arrays may be nested.
const DEEPEST: usize = 127;

/// Checks that a text is read as it is alone, and whether it is JSON.
fn reads(rt: &impl Abort, alloc: Global, kept: &mut JsonReader, text: &[u8], wanted: bool) {
    let found = kept.read(alloc, text).expect(rt, "ample memory");
    let alone = json(alloc, text).expect(rt, "ample memory");
    is_true_at(rt, found == alone, text);
    same_at(rt, found.is_some(), wanted, text);
}

/// Checks the same of several texts, in order.
fn reads_all(rt: &impl Abort, alloc: Global, texts: &[&[u8]], wanted: bool) {
    let mut kept = JsonReader::new(alloc);
    for text in texts {
        reads(rt, alloc, &mut kept, *text, wanted);
    }
}

#[test]
fn values_are_read(rt: HostRuntime) {
    reads_all(
        &rt,
        rt.alloc(),
        &[
            b"null",
            b"true",
            b" false\r\n",
            b"\"\"",
            b"\"\\u00e9\\ud83d\\ude00\\n\\\"\"",
            b"\"x\"",
            b"[]",
            b"[1,[2,[]],{\"a\":[null]}]",
            b"{}",
            b"{\"b\":1,\"a\":{\"b\":\"\\u0041\"},\"b\":[2]}",
            b"{\"ticket\":1,\"outcome\":{\"status\":503,\"duration_ms\":12}}",
        ],
        true,
    );
}

#[test]
fn numbers_are_read(rt: HostRuntime) {
    reads_all(
        &rt,
        rt.alloc(),
        &[
            b"0",
            b"-0",
            b"-1",
            b"18446744073709551615",
            b"18446744073709551616",
            b"-9223372036854775808",
            b"-9223372036854775809",
            b"1.0",
            b"-2.5e-3",
            b"1e308",
            b"1e-400",
        ],
        true,
    );
}

#[test]
fn other_texts_are_refused(rt: HostRuntime) {
    reads_all(
        &rt,
        rt.alloc(),
        &[
            b"",
            b"{",
            b"{}{}",
            b"[1,]",
            b"[1}",
            b"{\"a\":1,}",
            b"{\"a\"}",
            b"01",
            b"-",
            b"1e400",
            b"[0,-1e400]",
            b"{\"a\":{\"b\":1e400}}",
            b"\"\\ud83d\"",
            b"\"\xff\"",
            b"\xef\xbb\xbf1",
        ],
        false,
    );
}

/// So many arrays, one within another.
fn nested(rt: &impl Abort, alloc: Global, depth: usize) -> Vec<u8> {
    let mut text = Vec::new(alloc);
    text.resize(depth, b'[').expect(rt, "ample memory");
    text.resize(2 * depth, b']').expect(rt, "ample memory");
    text
}

#[test]
fn arrays_are_nested_127_deep_at_most(rt: HostRuntime) {
    let rt = &rt;
    let alloc = rt.alloc();
    let mut kept = JsonReader::new(alloc);
    let deepest = nested(rt, alloc, DEEPEST);
    reads(rt, alloc, &mut kept, deepest.as_slice(), true);
    let deeper = nested(rt, alloc, DEEPEST + 1);
    reads(rt, alloc, &mut kept, deeper.as_slice(), false);
    reads(rt, alloc, &mut kept, deepest.as_slice(), true);
}
