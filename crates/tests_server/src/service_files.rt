//! Files of `serve`: the settings that they give, and files that can't be used.
use crate::checks::{is_true, is_true_at, same, same_at};
use crate::fixtures::joined;
use config_mistakes::{config_mistake, file_mistake};
use requests::config;
use service::{Journal, Log, Upkeep};
use service_file::{Keeper, Logging, Settings, Tickets, read_settings};
use std::alloc::Global;
use std::process::Abort;
use texts::json;

/// Reads a file's text, or tells what is wrong with it.
pub(crate) fn told(rt: &impl Abort, alloc: Global, text: &str) -> Result<Settings, String> {
    match read_settings(alloc, text.as_bytes()).expect(rt, "ample memory") {
        Ok(settings) => Ok(settings),
        Err(mistake) => {
            let words = file_mistake(alloc, text.as_bytes(), mistake).expect(rt, "ample memory");
            Err(words)
        }
    }
}

/// Reads a file's text. Something is said of it where it can't be used.
pub(crate) fn read(rt: &impl Abort, alloc: Global, text: &str) -> Option<Settings> {
    match told(rt, alloc, text) {
        Ok(settings) => Some(settings),
        Err(words) => {
            is_true_at(rt, !words.is_empty(), text);
            None
        }
    }
}

/// A service of a file: its name, the size of its window, and the budget of its program.
type Service<'a> = (&'a str, u64, u32);

/// A file has these services.
fn have_services(rt: &impl Abort, settings: &Settings, services: &[Service<'_>]) {
    same(rt, settings.services.len(), services.len());
    for (found, wanted) in settings.services.iter().zip(services) {
        let (name, size, budget) = *wanted;
        same(rt, found.name.as_str(), name);
        same_at(rt, found.config.parts().sliding_window_size, size, name);
        same_at(rt, found.program.budget(), budget, name);
    }
}

#[test]
fn files_are_read(rt: HostRuntime) {
    let rt = &rt;
    let text =
        "{\"listen\":\"127.0.0.1:8080\",\"workers\":4,\"connections\":0,\"services\":[{\"name\":\"pay\",\"config\":{\"slidingWindowSize\":7},\"program\":\"b700000002000000 9500000000000000\"},{\"name\":\"a-1_z\"}]}";
    let settings = read(rt, rt.alloc(), text).expect(rt, "a file");
    same(rt, settings.listen.port(), 8080);
    is_true(rt, settings.listen.is_ipv4());
    same(rt, settings.workers, 4);
    same(rt, settings.connections, 0);
    have_services(rt, &settings, &[("pay", 7, 2), ("a-1_z", 100, 6)]);
}

#[test]
fn addresses_may_be_of_version_6(rt: HostRuntime) {
    let rt = &rt;
    let text =
        "{\"listen\":\"[::1]:0\",\"workers\":64,\"connections\":18446744073709551615,\"services\":[{\"name\":\"a\"}]}";
    let settings = read(rt, rt.alloc(), text).expect(rt, "a file");
    is_true(rt, settings.listen.is_ipv6());
    same(rt, settings.connections, u64::MAX);
}

/// The keeper that a file with this text between its workers and its connections gives; none where it can't be used.
fn keeper_of(rt: &impl Abort, alloc: Global, part: &str) -> Option<Keeper> {
    let text = format!(in alloc;
        "{{\"listen\":\"127.0.0.1:1\",\"workers\":2,{part}\"connections\":0,\"services\":[{{\"name\":\"pay\"}}]}}"
    );
    let text = text.expect(rt, "ample memory");
    Some(read(rt, alloc, &text)?.keeper)
}

#[test]
fn keepers_are_read(rt: HostRuntime) {
    let alloc = rt.alloc();
    for row in [
        ("", Some(Keeper::Lock)),
        ("\"keeper\":\"lock\",", Some(Keeper::Lock)),
        ("\"keeper\":\"slot\",", Some(Keeper::Slot)),
        ("\"keeper\":\"Slot\",", None),
        ("\"keeper\":\"\",", None),
        ("\"keeper\":null,", None),
        ("\"keeper\":1,", None),
    ] {
        let (part, keeper) = row;
        same_at(&rt, keeper_of(&rt, alloc, part), keeper, part);
    }
}

/// What a service with this text behind its name does for its upkeep; none where the file can't be used.
fn upkeep_of(rt: &impl Abort, alloc: Global, part: &str) -> Option<Upkeep> {
    let text = format!(in alloc;
        "{{\"listen\":\"127.0.0.1:1\",\"workers\":2,\"connections\":0,\"services\":[{{\"name\":\"pay\"{part}}}]}}"
    );
    let text = text.expect(rt, "ample memory");
    let settings = read(rt, alloc, &text)?;
    Some(settings.services.first()?.upkeep)
}

/// A service's upkeep.
fn upkeep(journal: Journal, max_ticket_age: u64) -> Option<Upkeep> {
    Some(Upkeep {
        journal,
        max_ticket_age,
        log: Log::Silent,
    })
}

#[test]
fn upkeeps_are_read(rt: HostRuntime) {
    let alloc = rt.alloc();
    for row in [
        ("", upkeep(Journal::Keep, 0)),
        (",\"journal\":\"keep\"", upkeep(Journal::Keep, 0)),
        (",\"journal\":\"last\"", upkeep(Journal::Last, 0)),
        (",\"journal\":\"Last\"", None),
        (",\"journal\":\"\"", None),
        (",\"journal\":null", None),
        (",\"journals\":\"last\"", None),
        (",\"maxTicketAge\":0", upkeep(Journal::Keep, 0)),
        (",\"maxTicketAge\":60000", upkeep(Journal::Keep, 60_000)),
        (
            ",\"maxTicketAge\":18446744073709551615,\"journal\":\"last\"",
            upkeep(Journal::Last, u64::MAX),
        ),
        (",\"maxTicketAge\":18446744073709551616", None),
        (",\"maxTicketAge\":-1", None),
        (",\"maxTicketAge\":1.5", None),
        (",\"maxTicketAge\":\"60000\"", None),
        (",\"maxTicketAge\":null", None),
        (",\"max_ticket_age\":1", None),
    ] {
        let (part, upkeep) = row;
        same_at(&rt, upkeep_of(&rt, alloc, part), upkeep, part);
    }
}

/// How a file with this text between its workers and its connections numbers tickets; none where it can't be used.
fn tickets_of(rt: &impl Abort, alloc: Global, part: &str) -> Option<Tickets> {
    let text = format!(in alloc;
        "{{\"listen\":\"127.0.0.1:1\",\"workers\":2,{part}\"connections\":0,\"services\":[{{\"name\":\"pay\"}}]}}"
    );
    let text = text.expect(rt, "ample memory");
    Some(read(rt, alloc, &text)?.tickets)
}

#[test]
fn numberings_of_tickets_are_read(rt: HostRuntime) {
    let alloc = rt.alloc();
    for row in [
        ("", Some(Tickets::FromOne)),
        ("\"tickets\":\"from 1\",", Some(Tickets::FromOne)),
        ("\"tickets\":\"by the clock\",", Some(Tickets::ByTheClock)),
        ("\"tickets\":\"By the clock\",", None),
        ("\"tickets\":\"from 2\",", None),
        ("\"tickets\":\"\",", None),
        ("\"tickets\":null,", None),
        ("\"tickets\":1,", None),
    ] {
        let (part, tickets) = row;
        same_at(&rt, tickets_of(&rt, alloc, part), tickets, part);
    }
}

/// What the log of a file with this text between its workers and its connections tells; none where it can't be used.
fn logging_of(rt: &impl Abort, alloc: Global, part: &str) -> Option<Logging> {
    let text = format!(in alloc;
        "{{\"listen\":\"127.0.0.1:1\",\"workers\":2,{part}\"connections\":0,\"services\":[{{\"name\":\"pay\"}}]}}"
    );
    let text = text.expect(rt, "ample memory");
    Some(read(rt, alloc, &text)?.logging)
}

#[test]
fn logs_are_read(rt: HostRuntime) {
    let alloc = rt.alloc();
    for row in [
        ("", Some(Logging::Silent)),
        ("\"log\":\"silent\",", Some(Logging::Silent)),
        ("\"log\":\"changes\",", Some(Logging::Changes)),
        ("\"log\":\"Changes\",", None),
        ("\"log\":\"all\",", None),
        ("\"log\":\"\",", None),
        ("\"log\":null,", None),
        ("\"log\":true,", None),
        ("\"logs\":\"changes\",", None),
    ] {
        let (part, logging) = row;
        same_at(&rt, logging_of(&rt, alloc, part), logging, part);
    }
}

/// How many connections a file with this text between its workers and its connections lets be open; none where it can't
/// be used.
fn most_open_of(rt: &impl Abort, alloc: Global, part: &str) -> Option<u64> {
    let text = format!(in alloc;
        "{{\"listen\":\"127.0.0.1:1\",\"workers\":2,{part}\"connections\":0,\"services\":[{{\"name\":\"pay\"}}]}}"
    );
    let text = text.expect(rt, "ample memory");
    Some(read(rt, alloc, &text)?.most_open)
}

#[test]
fn limits_of_open_connections_are_read(rt: HostRuntime) {
    let alloc = rt.alloc();
    for row in [
        ("", Some(1_024)),
        ("\"open\":1,", Some(1)),
        ("\"open\":65536,", Some(65_536)),
        ("\"open\":0,", None),
        ("\"open\":65537,", None),
        ("\"open\":1.0,", None),
        ("\"open\":\"8\",", None),
        ("\"open\":null,", None),
    ] {
        let (part, most) = row;
        same_at(&rt, most_open_of(&rt, alloc, part), most, part);
    }
}

/// A key of a configuration, its least and its greatest value, and what stands before it in the object.
type Range<'a> = (&'a str, u64, u64, &'a str);

/// Whether a configuration with this value can be used. A mistake is found in it exactly where it can't.
fn is_config(rt: &impl Abort, alloc: Global, range: Range<'_>, value: u64) -> bool {
    let (key, _, _, before) = range;
    let text = format!(in alloc; "{{{before}\"{key}\":{value}}}").expect(rt, "ample memory");
    let parsed = json(alloc, text.as_bytes())
        .expect(rt, "ample memory")
        .expect(rt, "JSON");
    let is_good = config(&parsed).is_ok();
    let mistake = config_mistake(alloc, text.as_bytes()).expect(rt, "ample memory");
    is_true_at(rt, mistake.is_none() == is_good, text);
    is_good
}

/// Both ends of each range can be used, and what lies next to them can't.
fn are_ranges(rt: &impl Abort, alloc: Global, ranges: &[Range<'_>]) {
    for range in ranges {
        let (key, least, most, _) = *range;
        is_true_at(rt, is_config(rt, alloc, *range, least), key);
        is_true_at(rt, is_config(rt, alloc, *range, most), key);
        is_true_at(
            rt,
            !is_config(rt, alloc, *range, most.saturating_add(1)),
            key,
        );
        if least > 0 {
            is_true_at(rt, !is_config(rt, alloc, *range, 0), key);
        }
    }
}

#[test]
fn mistakes_of_configurations_are_found(rt: HostRuntime) {
    are_ranges(
        &rt,
        rt.alloc(),
        &[
            ("failureRateThreshold", 1, 100, ""),
            ("slowCallRateThreshold", 1, 100, ""),
            ("slowCallDurationThreshold", 1, 1 << 32, ""),
            ("permittedNumberOfCallsInHalfOpenState", 1, 10_000, ""),
            ("maxWaitDurationInHalfOpenState", 0, 1 << 40, ""),
            ("slidingWindowSize", 1, 10_000, ""),
            (
                "slidingWindowSize",
                1,
                3_600,
                "\"slidingWindowType\":\"TIME_BASED\",",
            ),
            ("minimumNumberOfCalls", 1, 1_000_000, ""),
            ("waitDurationInOpenState", 1, 1 << 40, ""),
            ("maxConcurrentCalls", 1, 10_000, ""),
            ("maxWaitDuration", 0, 0, ""),
        ],
    );
}

/// Texts that are no files.
fn are_none(rt: &impl Abort, alloc: Global, texts: &[&str]) {
    for text in texts {
        is_true_at(rt, read(rt, alloc, text).is_none(), text);
    }
}

#[test]
fn files_that_cannot_be_used_are_none(rt: HostRuntime) {
    are_none(
        &rt,
        rt.alloc(),
        &[
            "",
            "[]",
            "{}",
            "{\"listen\":\"127.0.0.1:8080\",\"workers\":4,\"connections\":0,\"services\":[]}",
            "{\"listen\":\"127.0.0.1:8080\",\"workers\":4,\"connections\":0,\"services\":{}}",
            "{\"listen\":\"localhost:8080\",\"workers\":4,\"connections\":0,\"services\":[{\"name\":\"pay\"}]}",
            "{\"listen\":\"127.0.0.1\",\"workers\":4,\"connections\":0,\"services\":[{\"name\":\"pay\"}]}",
            "{\"listen\":\"127.0.0.1:65536\",\"workers\":4,\"connections\":0,\"services\":[{\"name\":\"pay\"}]}",
            "{\"listen\":\"127.0.0.1:8080\",\"workers\":0,\"connections\":0,\"services\":[{\"name\":\"pay\"}]}",
            "{\"listen\":\"127.0.0.1:8080\",\"workers\":65,\"connections\":0,\"services\":[{\"name\":\"pay\"}]}",
            "{\"listen\":\"127.0.0.1:8080\",\"workers\":4,\"services\":[{\"name\":\"pay\"}]}",
            "{\"listen\":\"127.0.0.1:8080\",\"workers\":4,\"connections\":-1,\"services\":[{\"name\":\"pay\"}]}",
            "{\"listen\":\"127.0.0.1:8080\",\"workers\":4,\"connections\":0,\"services\":[{\"name\":\"pay\"}],\"more\":1}",
            "{\"listen\":\"127.0.0.1:8080\",\"workers\":4,\"connections\":0,\"services\":[{\"name\":\"pay\"},{\"name\":\"pay\"}]}",
            "{\"listen\":\"127.0.0.1:8080\",\"workers\":4,\"connections\":0,\"services\":[{\"name\":\"Pay\"}]}",
            "{\"listen\":\"127.0.0.1:8080\",\"workers\":4,\"connections\":0,\"services\":[{\"name\":\"\"}]}",
            "{\"listen\":\"127.0.0.1:8080\",\"workers\":4,\"connections\":0,\"services\":[{\"name\":\"pay\",\"more\":1}]}",
            "{\"listen\":\"127.0.0.1:8080\",\"workers\":4,\"connections\":0,\"services\":[{\"config\":{}}]}",
            "{\"listen\":\"127.0.0.1:8080\",\"workers\":4,\"connections\":0,\"services\":[{\"name\":\"pay\",\"config\":{\"maxWaitDuration\":5}}]}",
            "{\"listen\":\"127.0.0.1:8080\",\"workers\":4,\"connections\":0,\"services\":[{\"name\":\"pay\",\"config\":null}]}",
            "{\"listen\":\"127.0.0.1:8080\",\"workers\":4,\"connections\":0,\"services\":[{\"name\":\"pay\",\"program\":null}]}",
            "{\"listen\":\"127.0.0.1:8080\",\"workers\":4,\"connections\":0,\"services\":[{\"name\":\"pay\",\"program\":\"b\"}]}",
            "{\"listen\":\"127.0.0.1:8080\",\"workers\":4,\"connections\":0,\"services\":[{\"name\":\"pay\",\"program\":\"9500000000000000\"}]}",
        ],
    );
}

/// A file with so many services, whose names have so many bytes.
fn many(rt: &impl Abort, alloc: Global, count: u32, size: usize) -> String {
    let begin = "{\"listen\":\"127.0.0.1:1\",\"workers\":1,\"connections\":1,\"services\":[";
    let mut text = joined(rt, alloc, &[begin]);
    for number in 0..count {
        let separator = if number == 0 { "" } else { "," };
        let service = format!(in alloc; "{separator}{{\"name\":\"{number:0>size$}\"}}");
        let service = service.expect(rt, "ample memory");
        text.push_str(&service).expect(rt, "ample memory");
    }
    text.push_str("]}").expect(rt, "ample memory");
    text
}

/// Whether a file with so many services, whose names have so many bytes, can be used.
fn can_be_used(rt: &impl Abort, alloc: Global, count: u32, size: usize, is_used: bool) {
    let text = many(rt, alloc, count, size);
    let found = read(rt, alloc, &text);
    same_at(rt, found.is_some(), is_used, (&count, &size));
}

#[test]
fn services_and_names_have_a_limit(rt: HostRuntime) {
    let rt = &rt;
    can_be_used(rt, rt.alloc(), 64, 2, true);
    can_be_used(rt, rt.alloc(), 65, 2, false);
    can_be_used(rt, rt.alloc(), 1, 64, true);
    can_be_used(rt, rt.alloc(), 1, 65, false);
}
