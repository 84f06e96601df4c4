//! Records as they are read from JSON, and what the helper functions answer of them.
use crate::checks::{is_printed, is_true, same, same_at};
use bpf_profile::Size;
use helpers::Record;
use packed_outcomes::PackedOutcome;
use refusals::RefusalNumber;
use serde_json::Value;
use std::alloc::Global;
use std::process::Abort;
use texts::{BadField, read_outcome};

const WHOLE: &str =
    "{\"kind\":\"error\",\"status\":503,\"duration_ms\":250,\"request_bytes\":1024,\"response_bytes\":4096,\"attempt\":3,\"method\":\"PATCH\",\"flags\":9,\"body_length\":70000,\"body_front\":\"7B0a\",\"facts\":[5,18446744073709551615],\"tag\":\"706179\",\"other\":null}";

/// The value of a text that is JSON.
fn value(rt: &impl Abort, alloc: Global, text: &str) -> Value {
    Value::from_str(alloc, text).expect(rt, "JSON")
}

/// The record of a text that is an outcome.
fn read(rt: &impl Abort, alloc: Global, text: &str) -> Record {
    read_outcome(&value(rt, alloc, text)).expect(rt, "an outcome")
}

#[test]
fn an_empty_object_is_a_response(rt: HostRuntime) {
    let rt = &rt;
    let outcome = read(rt, rt.alloc(), "{}");
    same(rt, *outcome.context(), [0; 192]);
    same(rt, *outcome.facts(), [0; 16]);
    is_true(rt, outcome.tag().is_empty());
}

#[test]
fn numbers_stand_at_their_offsets(rt: HostRuntime) {
    let rt = &rt;
    let text = "{\"kind\":\"timeout\",\"status\":500,\"duration_ms\":101}";
    let outcome = read(rt, rt.alloc(), text);
    same(rt, outcome.word_at(0, Size::Word), 1);
    same(rt, outcome.word_at(4, Size::Word), 500);
    same(rt, outcome.duration(), 101);
}

/// Checks the numbers up to the attempt.
fn has_numbers(rt: &impl Abort, outcome: &Record) {
    same(rt, outcome.word_at(0, Size::Word), 4);
    same(rt, outcome.word_at(4, Size::Word), 503);
    same(rt, outcome.word_at(8, Size::DoubleWord), 250);
    same(rt, outcome.word_at(16, Size::DoubleWord), 1024);
    same(rt, outcome.word_at(24, Size::DoubleWord), 4096);
    same(rt, outcome.word_at(32, Size::Word), 3);
}

/// Checks what stands behind the attempt: the method, the flags, the body's length and its front.
fn has_method_and_body(rt: &impl Abort, outcome: &Record) {
    same(rt, outcome.word_at(36, Size::Word), 9);
    same(rt, outcome.word_at(40, Size::DoubleWord), 9);
    same(rt, outcome.word_at(48, Size::DoubleWord), 70000);
    same(rt, outcome.word_at(56, Size::DoubleWord), 0);
    same(rt, outcome.word_at(64, Size::HalfWord), 0x0a7b);
    same(rt, outcome.word_at(65, Size::Byte), 10);
    same(rt, outcome.word_at(66, Size::Byte), 0);
}

/// Checks what the helper functions answer: a byte of the front, facts and the tag.
fn has_front_and_facts(rt: &impl Abort, outcome: &Record) {
    same(rt, outcome.front_byte(0), 0x7b);
    same(rt, outcome.fact(0), 5);
    same(rt, outcome.fact(1), 18446744073709551615);
    same(rt, outcome.fact(15), 0);
    same(rt, outcome.tag(), b"pay".as_slice());
}

#[test]
fn every_key_is_read(rt: HostRuntime) {
    let outcome = read(&rt, rt.alloc(), WHOLE);
    has_numbers(&rt, &outcome);
    has_method_and_body(&rt, &outcome);
    has_front_and_facts(&rt, &outcome);
}

/// Checks that these are no outcomes.
fn are_refused(rt: &impl Abort, alloc: Global, texts: &[&str]) {
    for text in texts {
        let refused = BadField {
            number: RefusalNumber::BadValue,
        };
        let found = read_outcome(&value(rt, alloc, *text));
        same_at(rt, found, Err(refused), text);
    }
}

#[test]
fn wrong_values_are_refused(rt: HostRuntime) {
    are_refused(
        &rt,
        rt.alloc(),
        &[
            "{\"status\":null}",
            "{\"status\":4294967296}",
            "{\"status\":1.0}",
            "{\"flags\":1e2}",
            "{\"flags\":-0}",
            "{\"flags\":18446744073709551616}",
            "{\"body_front\":\"000000000000000000000000000000000000000000000000000000000000000000000000000000000000000000000000000000000000000000000000000000000000000000000000000000000000000000000000000000000000000000000000000000000000000000000000000000000000000000000000000000000000000000\"}",
            "{\"facts\":[0,0,0,0,0,0,0,0,0,0,0,0,0,0,0,0,0]}",
            "{\"facts\":[null]}",
            "{\"tag\":\"000000000000000000000000000000000000000000000000000000000000000000\"}",
            "{\"kind\":\"other\"}",
            "{\"method\":7}",
            "{\"tag\":\"7\"}",
            "{\"tag\":\"70 61\"}",
            "[]",
        ],
    );
}

#[test]
fn a_refusal_in_words(rt: HostRuntime) {
    let refused = BadField {
        number: RefusalNumber::BadValue,
    };
    is_printed(&rt, rt.alloc(), &refused, "refused 59 BadField");
}

/// Checks that an outcome is unpacked as it was packed, and so is its copy.
fn is_kept(rt: &impl Abort, alloc: Global, text: &str) {
    let outcome = read(rt, alloc, text);
    let packed = PackedOutcome::pack(alloc, &outcome).expect(rt, "ample memory");
    let copy = packed.try_clone().expect(rt, "ample memory");
    same_at(rt, packed.unpack(), outcome, text);
    same_at(rt, copy.unpack(), outcome, text);
    same_at(rt, copy.duration(), outcome.duration(), text);
}

#[test]
fn packed_outcomes_are_copied(rt: HostRuntime) {
    let texts: &[&str] = &[
        "{}",
        "{\"status\":503}",
        "{\"duration_ms\":101}",
        "{\"tag\":\"00\"}",
        WHOLE,
    ];
    for text in texts {
        is_kept(&rt, rt.alloc(), *text);
    }
}

/// Checks that these are read as outcomes without a method.
fn are_read(rt: &impl Abort, alloc: Global, texts: &[&str]) {
    for text in texts {
        let outcome = read(rt, alloc, *text);
        same_at(rt, outcome.word_at(36, Size::Word), 0, text);
    }
}

#[test]
fn the_widest_values_are_read(rt: HostRuntime) {
    are_read(
        &rt,
        rt.alloc(),
        &[
            "{\"status\":4294967295,\"method\":\"get\"}",
            "{\"status\":null,\"status\":1}",
            "{\"facts\":[0,0,0,0,0,0,0,0,0,0,0,0,0,0,0,0]}",
            "{\"body_front\":\"0000000000000000000000000000000000000000000000000000000000000000000000000000000000000000000000000000000000000000000000000000000000000000000000000000000000000000000000000000000000000000000000000000000000000000000000000000000000000000000000000000000000000000\"}",
            "{\"tag\":\"0000000000000000000000000000000000000000000000000000000000000000\"}",
        ],
    );
}

#[test]
fn a_tag_has_at_most_32_bytes(rt: HostRuntime) {
    let longer = Record::from_parts([0; 192], [0; 16], &[7; 33]);
    is_true(&rt, longer.is_none());
    let longest = Record::from_parts([0; 192], [0; 16], &[7; 32]);
    is_true(&rt, longest.is_some());
}

#[test]
fn a_copied_tag_ends_in_zeros(rt: HostRuntime) {
    let outcome = read(&rt, rt.alloc(), "{\"tag\":\"6162\"}");
    let mut to = [9; 3];
    same(&rt, outcome.copy_tag(&mut to), 2);
    same(&rt, to, [0x61, 0x62, 0]);
}

#[test]
fn a_tag_starts_with_its_front(rt: HostRuntime) {
    let rt = &rt;
    let pay = read(rt, rt.alloc(), "{\"tag\":\"706179\"}");
    is_true(rt, pay.tag_starts(b"p"));
    is_true(rt, pay.tag_starts(b"pay"));
    is_true(rt, !pay.tag_starts(b"a"));
    let p = read(rt, rt.alloc(), "{\"tag\":\"70\"}");
    is_true(rt, !p.tag_starts(b"pa"));
}
