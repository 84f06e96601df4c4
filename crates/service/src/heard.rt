//! What a log hears of the answers of calls.
use crate::log::News;
use book::{Apply, Call, Cut, Entry, Look, Page, Read, Reading, Reply, Roll};
use refusals::RefusalNumber;
use std::sync::Arc;
use verifier::Verified;

/// A call, and what a log hears of its answer.
pub trait Heard: Call {
    /// What a log hears of this answer; None where it is nothing that changes the service, or that anybody has to know.
    fn heard(answer: &Self::Answer) -> Option<News>;
}

impl Heard for Apply {
    fn heard(answer: &Reply) -> Option<News> {
        Some(News::Answered(*answer))
    }
}

impl Heard for Look {
    fn heard(_answer: &Result<Arc<Verified>, RefusalNumber>) -> Option<News> {
        None
    }
}

impl Heard for Read {
    fn heard(_answer: &Reading) -> Option<News> {
        None
    }
}

/// The number of the last of these entries, where there are some.
fn last_of(answer: &Result<Vec<Entry>, RefusalNumber>) -> Option<u64> {
    match answer {
        Ok(entries) => entries.last().map(|entry| entry.number()),
        Err(_) => None,
    }
}

impl Heard for Page {
    fn heard(answer: &Result<Vec<Entry>, RefusalNumber>) -> Option<News> {
        last_of(answer).map(|last| News::Paged(last))
    }
}

impl Heard for Cut {
    fn heard(answer: &Result<Vec<Entry>, RefusalNumber>) -> Option<News> {
        match answer {
            Ok(_) => Some(News::Cut(last_of(answer).unwrap_or(0))),
            Err(_) => None,
        }
    }
}

impl Heard for Roll {
    fn heard(answer: &Result<Vec<Entry>, RefusalNumber>) -> Option<News> {
        last_of(answer).map(|last| News::Rolled(last))
    }
}
