//! That requests are read with ample memory, and what numbers in JSON are.
use crate::checks::{is_true_at, same, same_at};
use book::{Config, ConfigParts, SlidingWindowType, State};
use requests::{config, number_at, program, report, state, text_at};
use serde_json::Value;
use service::Report;
use std::alloc::Global;
use std::process::Abort;
use texts::json;

/// The value of a text that is JSON.
fn value(rt: &impl Abort, alloc: Global, text: &str) -> Value {
    json(alloc, text.as_bytes())
        .expect(rt, "ample memory")
        .expect(rt, "JSON")
}

/// Whether bytes are JSON.
fn is_json(rt: &impl Abort, alloc: Global, text: &[u8]) -> bool {
    json(alloc, text).expect(rt, "ample memory").is_some()
}

/// Checks whether all these are JSON.
fn are_json(rt: &impl Abort, alloc: Global, texts: &[&[u8]], wanted: bool) {
    for text in texts {
        same_at(rt, is_json(rt, alloc, *text), wanted, text);
    }
}

#[test]
fn text_is_json_or_not(rt: HostRuntime) {
    let others: &[&[u8]] = &[b"", b" ", b"{", b"{}{}", b"{'a':1}", b"01", b"\"\xff\""];
    are_json(&rt, rt.alloc(), others, false);
    let texts: &[&[u8]] = &[b"{}", b" [1, 2]\r\n", b"null"];
    are_json(&rt, rt.alloc(), texts, true);
}

/// The number that stands at `n` in a text.
fn number_in(rt: &impl Abort, alloc: Global, text: &str) -> Option<u64> {
    number_at(&value(rt, alloc, text), "n")
}

/// Checks which numbers stand at `n`. Each row is a text and the number in it.
fn are_numbers(rt: &impl Abort, alloc: Global, rows: &[(&str, Option<u64>)]) {
    for row in rows {
        let (text, number) = *row;
        same_at(rt, number_in(rt, alloc, text), number, &text);
    }
}

/// Checks what stands as text at a key of a value.
fn has_text(rt: &impl Abort, value: &Value, key: &str, wanted: Option<&str>) {
    same_at(rt, text_at(value, key), wanted, &key);
}

#[test]
fn whole_numbers_are_written_as_such(rt: HostRuntime) {
    let rt = &rt;
    are_numbers(
        rt,
        rt.alloc(),
        &[
            ("{\"n\":0}", Some(0)),
            ("{\"n\":18446744073709551615}", Some(u64::MAX)),
            ("{\"n\":18446744073709551616}", None),
            ("{\"n\":1.0}", None),
            ("{\"n\":1e2}", None),
            ("{\"n\":-0}", None),
            ("{\"n\":-1}", None),
            ("{\"n\":\"1\"}", None),
            ("{\"n\":null}", None),
            ("{\"n\":1,\"n\":2}", Some(2)),
            ("{}", None),
            ("[1]", None),
        ],
    );
    let value = value(rt, rt.alloc(), "{\"do\":\"read\",\"at\":1}");
    has_text(rt, &value, "do", Some("read"));
    has_text(rt, &value, "at", None);
    has_text(rt, &value, "to", None);
}

/// The configuration in a text.
fn config_in(rt: &impl Abort, alloc: Global, text: &str) -> Option<Config> {
    config(&value(rt, alloc, text)).ok()
}

/// The parts of a configuration.
fn parts_of(rt: &impl Abort, alloc: Global, text: &str) -> ConfigParts {
    let config = config_in(rt, alloc, text);
    config.expect(rt, "a configuration").parts()
}

#[test]
fn missing_values_are_the_defaults(rt: HostRuntime) {
    let rt = &rt;
    let defaults = parts_of(rt, rt.alloc(), "{}");
    same(rt, defaults, ConfigParts::DEFAULT);
    let whole = parts_of(
        rt,
        rt.alloc(),
        "{\"failureRateThreshold\":1,\"slowCallRateThreshold\":2,\"slowCallDurationThreshold\":3,\"permittedNumberOfCallsInHalfOpenState\":4,\"maxWaitDurationInHalfOpenState\":9,\"slidingWindowType\":\"COUNT_BASED\",\"slidingWindowSize\":5,\"minimumNumberOfCalls\":6,\"waitDurationInOpenState\":7,\"maxConcurrentCalls\":8,\"maxWaitDuration\":0}",
    );
    let parts = ConfigParts {
        failure_rate_threshold: 1,
        slow_call_rate_threshold: 2,
        slow_call_duration_threshold: 3,
        permitted_number_of_calls_in_half_open_state: 4,
        max_wait_duration_in_half_open_state: 9,
        sliding_window_type: SlidingWindowType::CountBased,
        sliding_window_size: 5,
        minimum_number_of_calls: 6,
        wait_duration_in_open_state: 7,
        max_concurrent_calls: 8,
        max_wait_duration: 0,
    };
    same(rt, whole, parts);
}

#[test]
fn time_windows_are_read(rt: HostRuntime) {
    let text = "{\"slidingWindowType\":\"TIME_BASED\",\"slidingWindowSize\":3600}";
    let parts = parts_of(&rt, rt.alloc(), text);
    same(&rt, parts.sliding_window_type, SlidingWindowType::TimeBased);
    same(&rt, parts.sliding_window_size, 3_600);
}

/// The bytes of the program in a text.
fn program_in(rt: &impl Abort, alloc: Global, text: &str) -> Option<Vec<u8>> {
    program(alloc, &value(rt, alloc, text)).expect(rt, "ample memory")
}

/// Checks which programs are read. Each row is a text and the bytes of the program in it.
fn are_programs(rt: &impl Abort, alloc: Global, rows: &[(&str, &[u8])]) {
    for row in rows {
        let (text, bytes) = *row;
        let found = program_in(rt, alloc, text).expect(rt, "a program");
        same_at(rt, found.as_slice(), bytes, &text);
    }
}

/// Checks that these are no programs.
fn are_no_programs(rt: &impl Abort, alloc: Global, texts: &[&str]) {
    for text in texts {
        let found = program_in(rt, alloc, *text);
        is_true_at(rt, found.is_none(), text);
    }
}

#[test]
fn programs_are_read(rt: HostRuntime) {
    are_programs(
        &rt,
        rt.alloc(),
        &[
            ("{\"program\":\"\"}", b""),
            ("{\"program\":\" b7 0A fF \"}", b"\xb7\x0a\xff"),
        ],
    );
    are_no_programs(
        &rt,
        rt.alloc(),
        &[
            "{\"program\":\"b70\"}",
            "{\"program\":\"b7\\t0a\"}",
            "{\"program\":\"0xb7\"}",
            "{\"program\":null}",
            "{\"program\":183}",
            "{}",
            "[]",
        ],
    );
}

/// The state in a text.
fn state_in(rt: &impl Abort, alloc: Global, text: &str) -> Option<State> {
    state(&value(rt, alloc, text))
}

/// Checks which states are read. Each row is a text and the state in it.
fn are_states(rt: &impl Abort, alloc: Global, rows: &[(&str, Option<State>)]) {
    for row in rows {
        let (text, found) = *row;
        same_at(rt, state_in(rt, alloc, text), found, &text);
    }
}

#[test]
fn states_are_read(rt: HostRuntime) {
    are_states(
        &rt,
        rt.alloc(),
        &[
            ("{\"state\":\"CLOSED\"}", Some(State::Closed)),
            ("{\"state\":\"OPEN\"}", Some(State::Open)),
            ("{\"state\":\"HALF_OPEN\"}", Some(State::HalfOpen)),
            ("{\"state\":\"DISABLED\"}", Some(State::Disabled)),
            ("{\"state\":\"METRICS_ONLY\"}", Some(State::MetricsOnly)),
            ("{\"state\":\"FORCED_OPEN\"}", Some(State::ForcedOpen)),
            ("{\"state\":\"closed\"}", None),
            ("{\"state\":null}", None),
            ("{\"to\":\"OPEN\"}", None),
        ],
    );
}

/// Checks that these are no configurations.
fn are_no_configurations(rt: &impl Abort, alloc: Global, texts: &[&str]) {
    for text in texts {
        let found = config_in(rt, alloc, *text);
        is_true_at(rt, found.is_none(), text);
    }
}

#[test]
fn other_configurations_are_refused(rt: HostRuntime) {
    are_no_configurations(
        &rt,
        rt.alloc(),
        &[
            "[]",
            "null",
            "{\"maxWaitDuration\":5}",
            "{\"minimumNumberOfCalls\":null}",
            "{\"slidingWindowType\":\"OTHER\"}",
            "{\"slidingWindowtype\":\"COUNT_BASED\"}",
            "{\"ringBufferSize\":10}",
            "{\"slidingWindowType\":\"TIME_BASED\",\"slidingWindowSize\":3601}",
            "{\"slidingWindowType\":\"TIME_BASED\",\"slidingWindowSize\":0}",
        ],
    );
}

/// The report in a text.
fn report_in(rt: &impl Abort, alloc: Global, text: &str) -> Option<Report> {
    report(alloc, &value(rt, alloc, text)).expect(rt, "ample memory")
}

/// Checks that these are no reports.
fn are_no_reports(rt: &impl Abort, alloc: Global, texts: &[&str]) {
    for text in texts {
        let found = report_in(rt, alloc, *text);
        is_true_at(rt, found.is_none(), text);
    }
}

#[test]
fn reports_are_read(rt: HostRuntime) {
    let rt = &rt;
    let good = "{\"outcome\":{\"duration_ms\":7},\"ticket\":3,\"other\":null}";
    let reported = report_in(rt, rt.alloc(), good).expect(rt, "a report");
    same(rt, reported.ticket, 3);
    same(rt, reported.outcome.duration(), 7);
    are_no_reports(
        rt,
        rt.alloc(),
        &[
            "{}",
            "{\"ticket\":3}",
            "{\"outcome\":{}}",
            "{\"ticket\":\"3\",\"outcome\":{}}",
            "{\"ticket\":3,\"outcome\":[]}",
            "{\"ticket\":3,\"outcome\":{\"kind\":\"other\"}}",
            "[3, {}]",
        ],
    );
}
