//! The outcome that a JSON value describes.
ghost use Rattle.std.specs.Prelude.{◌≡◌, None, Some, IfOk, OnErr, IfErr, option_map};
ghost use Rattle.serde_json.specs.View.{view, items_view};
ghost use Rattle.helpers.specs.Padded.{padded};
ghost use Rattle.texts.specs.Outcomes.{u64_at, u32_at, kind_at, method_at, front_at, tag_at, facts_of, facts_at, fields_of, outcome_of};
ghost use Rattle.bpf_profile.specs.Limits.{fact_count};

use crate::padded_bytes::read_padded;
use bpf_profile::{FACT_COUNT, FRONT_SIZE, MOST_TAG_BYTES};
use helpers::{Fields, Kind, Method, Record, Tag};
use refusals::{RefusalNumber, RefusalText};
use serde_json::Value;
use std::fmt;
use thiserror::Error;

/// A value that is of the wrong kind or out of range.
#[derive(Clone, Copy, Debug, PartialEq, Eq, Error)]
pub struct BadField {
    /// Always `RefusalNumber::BadValue`.
    pub number: RefusalNumber,
}

impl fmt::Display for BadField {
    ghost use Rattle.std.specs.Prelude.{Some};
    ghost use Rattle.refusals.specs.Texts.{refusal_text};

    ghost output = { λ error. Some (refusal_text error.number 0) };

    fn fmt<W: fmt::Write>(&self, f: &mut fmt::Formatter<W>) -> fmt::Result {
        let shown = RefusalText {
            number: self.number,
            place: 0,
        };
        write!(f, "{shown}")
    }
}

/// A number below 2^64; 0 where the key is missing.
fn number_at(value: &Value, key: &str) -> Option<u64>
    ensures { result ≡ u64_at key.now (view value.now) }
{
    match value.get(key) {
        None => Some(0),
        Some(found) => found.as_u64(),
    }
}

/// A number below 2^32; 0 where the key is missing.
fn small_at(value: &Value, key: &str) -> Option<u32>
    ensures { result ≡ u32_at key.now (view value.now) }
{
    u32::try_from(number_at(value, key)?).ok()
}

/// How the call ended.
fn kind(value: &Value) -> Option<Kind>
    ensures { result ≡ kind_at (view value.now) }
{
    match value.get("kind") {
        None => Some(Kind::Response),
        Some(found) => Kind::named(found.as_str()?),
    }
}

/// The method; a text that names none stands for another method.
fn method(value: &Value) -> Option<Method>
    ensures { result ≡ method_at (view value.now) }
{
    match value.get("method") {
        None => Some(Method::Other),
        Some(found) => Some(Method::named(found.as_str()?)),
    }
}

/// The front of the body; zeros fill the rest.
fn front(value: &Value) -> Option<[u8; FRONT_SIZE]>
    ensures { result ≡ front_at (view value.now) }
{
    let mut front = [0; FRONT_SIZE];
    if let Some(found) = value.get("body_front") {
        read_padded(found.as_str()?, &mut front)?;
    }
    Some(front)
}

/// The tag; empty where the key is missing.
fn tag(value: &Value) -> Option<Tag>
    ensures { result ≡ tag_at (view value.now) }
{
    let Some(found) = value.get("tag") else {
        return Tag::new(&[]);
    };
    let mut room = [0; MOST_TAG_BYTES];
    let count = read_padded(found.as_str()?, &mut room)?;
    Tag::new(&room[..count])
}

/// At most sixteen numbers; zeros fill the rest.
fn numbers(items: &[Value]) -> Option<[u64; FACT_COUNT]>
    ensures { result ≡ option_map (padded fact_count) (facts_of (items_view items.now)) }
{
    if items.len() > FACT_COUNT {
        return None;
    }
    let mut numbers = [0; FACT_COUNT];
    for (i, item) in items.iter().enumerate() {
        numbers[i] = item.as_u64()?;
    }
    Some(numbers)
}

/// The facts; zeros where the key is missing.
fn facts(value: &Value) -> Option<[u64; FACT_COUNT]>
    ensures { result ≡ facts_at (view value.now) }
{
    match value.get("facts") {
        None => Some([0; FACT_COUNT]),
        Some(found) => numbers(found.as_array()?),
    }
}

/// The fields of the context.
#[tactic(auto, unfolding(crate::specs::Outcomes::fields_of))]
fn fields(value: &Value) -> Option<Fields>
    ensures { result ≡ fields_of (view value.now) }
{
    Some(Fields {
        kind: kind(value)?,
        status: small_at(value, "status")?,
        duration: number_at(value, "duration_ms")?,
        request_bytes: number_at(value, "request_bytes")?,
        response_bytes: number_at(value, "response_bytes")?,
        attempt: small_at(value, "attempt")?,
        method: method(value)?,
        flags: number_at(value, "flags")?,
        body_length: number_at(value, "body_length")?,
        front: front(value)?,
    })
}

/// The whole record; None also where the value is no object.
#[tactic(auto, unfolding(crate::specs::Outcomes::outcome_of))]
fn outcome(value: &Value) -> Option<Record>
    ensures { result ≡ outcome_of (view value.now) }
{
    if !value.is_object() {
        return None;
    }
    let fields = fields(value)?;
    Some(Record::new(fields.context(), facts(value)?, tag(value)?))
}

/// The record of the outcome that a JSON object describes.
///
/// Each key may be missing, and other keys are ignored: `kind` (`response`, which is meant where
/// it is missing, `timeout`, `refused`, `reset` or `error`), `status` and `attempt` (below
/// 2^32), `duration_ms`, `request_bytes`, `response_bytes`, `flags` and `body_length` (below
/// 2^64), `method` (any text), `body_front` (hexadecimal, at most 128 bytes), `facts` (at most
/// sixteen numbers below 2^64) and `tag` (hexadecimal, at most 32 bytes). A missing number is 0,
/// and a missing text or array has nothing.
///
/// An error comes where the value is no object, or one of these values, `null` among them, is
/// of another kind, out of range or too long.
pub fn read_outcome(value: &Value) -> Result<Record, BadField>
    ensures ok { IfOk result (λ outcome. outcome_of (view value.now) ≡ Some outcome) }
    ensures err { OnErr result (outcome_of (view value.now) ≡ None) }
    ensures number { IfErr result (λ e. e.number ≡ RefusalNumber.BadValue) }
{
    outcome(value).ok_or(BadField {
        number: RefusalNumber::BadValue,
    })
}
