//! What is said of reports that can't be used, and that nothing is said of others.
use crate::checks::same_at;
use config_mistakes::report_mistake;
use std::alloc::Global;
use std::process::Abort;

const NUMBER: &str = "is not a whole number from 0 to 18446744073709551615";

const SMALL: &str = "is not a whole number from 0 to 4294967295";

/// Of an outcome with this key this is said: its value isn't this, which is then shown.
fn is_said(rt: &impl Abort, alloc: Global, key: &str, value: &str, wanted: &str) {
    let text = format!(in alloc; "{{\"ticket\":1,\"outcome\":{{\"{key}\":{value}}}}}");
    let text = text.expect(rt, "ample memory");
    let found = report_mistake(alloc, text.as_bytes()).expect(rt, "ample memory");
    let found = found.expect(rt, "a mistake");
    let words = format!(in alloc; "outcome.{key}: {value} {wanted}").expect(rt, "ample memory");
    same_at(rt, found.as_str() == words.as_str(), true, found.as_str());
}

#[test]
fn each_key_of_an_outcome_has_its_words(rt: HostRuntime) {
    let rt = &rt;
    let alloc = rt.alloc();
    let rows = [
        ("status", "\"500\"", SMALL),
        ("attempt", "1.5", SMALL),
        ("duration_ms", "-1", NUMBER),
        ("request_bytes", "null", NUMBER),
        ("response_bytes", "true", NUMBER),
        ("flags", "\"\"", NUMBER),
        ("body_length", "2.5", NUMBER),
        ("method", "7", "is not a text"),
        (
            "kind",
            "\"late\"",
            "is not \"response\", \"timeout\", \"refused\", \"reset\" or \"error\"",
        ),
        (
            "body_front",
            "\"0\"",
            "is not at most 128 bytes as text in hexadecimal",
        ),
        (
            "tag",
            "\"0g\"",
            "is not at most 32 bytes as text in hexadecimal",
        ),
        (
            "facts",
            "7",
            "is not an array of at most 16 whole numbers from 0 to 18446744073709551615",
        ),
    ];
    for (key, value, wanted) in rows {
        is_said(rt, alloc, key, value, wanted);
    }
    is_said(
        rt,
        alloc,
        "status",
        "4294967296",
        "is not from 0 to 4294967295",
    );
}

/// Of this text this is said.
fn are_words(rt: &impl Abort, alloc: Global, text: &str, wanted: Option<&str>) {
    let found = report_mistake(alloc, text.as_bytes()).expect(rt, "ample memory");
    let found = found.as_ref().map(|words| words.as_str());
    same_at(rt, found == wanted, true, text);
}

#[test]
fn other_reports_have_theirs_or_none(rt: HostRuntime) {
    let rt = &rt;
    let alloc = rt.alloc();
    let rows = [
        ("{\"outcome\":{}}", Some("ticket: the key is missing")),
        ("{\"ticket\":1}", Some("outcome: the key is missing")),
        (
            "{\"ticket\":1,\"outcome\":[]}",
            Some("outcome: an array is not an object"),
        ),
        ("7", Some("ticket: the key is missing")),
        ("{\"ticket\":1,\"outcome\":{}}", None),
        (
            "{\"ticket\":1,\"outcome\":{\"status\":4294967295,\"tag\":\"0aFF\",\"facts\":[],\"kind\":\"error\",\"method\":\"\",\"body_front\":\"\"},\"more\":1}",
            None,
        ),
    ];
    for (text, wanted) in rows {
        are_words(rt, alloc, text, wanted);
    }
}
