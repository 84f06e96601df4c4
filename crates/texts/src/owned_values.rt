//! Values of JSON that own their texts, made of values that borrow them from the text that was read.
ghost use Rattle.std.specs.Prelude.{◌≡◌, ◌<◌, ◌==◌, length, slice_index, true, false, IsTrue, IfOk, option_map};
ghost use Rattle.fast_float.specs.Text.{minus, scan};
ghost use Rattle.json.specs.Value.{value_view as borrowed_view, items_view as borrowed_items, members_view as borrowed_members};
ghost use Rattle.serde_json.specs.Data.{no_members};
ghost use Rattle.serde_json.specs.Read.{of_json, of_items, of_members, number_of, number_from};
ghost use Rattle.serde_json.specs.View.{view, number_view, items_view, members_view};

use fast_float::Numeral;
use json::Value as Borrowed;
use serde_json::{Map, Number, Value};
use std::alloc::{AllocError, Global};

/// The number that digits without a sign write; None where it is too large for a float.
fn unsigned(digits: &[u8]) -> Option<Number>
    ensures { option_map number_view result ≡ number_from false (scan digits.now) }
{
    let numeral = Numeral::scan(digits);
    match numeral.to_u64() {
        Some(number) => Some(Number::from(number)),
        None => Number::from_f64(numeral.to_float::<f64>(false)),
    }
}

/// The number that digits behind a minus sign write; None where it is too large for a float. `-0` is a float.
fn negative(digits: &[u8]) -> Option<Number>
    ensures { option_map number_view result ≡ number_from true (scan digits.now) }
{
    let numeral = Numeral::scan(digits);
    match numeral.to_i64(true) {
        Some(number) if number < 0 => Some(Number::from(number)),
        _ => Number::from_f64(numeral.to_float::<f64>(true)),
    }
}

/// Whether a number's text begins with a minus sign.
fn has_minus(bytes: &[u8]) -> bool
    ensures value { result ≡ (slice_index bytes.now 0 == minus) }
    ensures some { IsTrue result → 0 < length bytes.now }
{
    !bytes.is_empty() && bytes[0] == b'-'
}

/// The number that a text of JSON writes; None where it is too large for a float.
fn number(text: &str) -> Option<Number>
    ensures { option_map number_view result ≡ number_of text.now }
{
    let bytes = text.as_bytes();
    if has_minus(bytes) {
        negative(&bytes[1..])
    } else {
        unsigned(bytes)
    }
}

/// Makes a value that owns its texts; None where a number in it is too large for a float. The error is want of memory.
#[cycle(owned)]
pub(crate) fn owned(alloc: Global, value: &Borrowed<'_>) -> Result<Option<Value>, AllocError>
    ensures { IfOk result (λ found. option_map view found ≡ of_json (borrowed_view value.now)) }
{
    match value {
        Borrowed::Null => Ok(Some(Value::Null)),
        Borrowed::Bool(is_true) => Ok(Some(Value::Bool(*is_true))),
        Borrowed::Number(text) => match number(text) {
            Some(number) => Ok(Some(Value::Number(number))),
            None => Ok(None),
        },
        Borrowed::String(text) => Ok(Some(Value::String(String::from_str(alloc, text)?))),
        Borrowed::Array(items) => match owned_items(alloc, items)? {
            Some(items) => Ok(Some(Value::Array(items))),
            None => Ok(None),
        },
        Borrowed::Object(members) => match owned_members(alloc, members)? {
            Some(members) => Ok(Some(Value::Object(members))),
            None => Ok(None),
        },
    }
}

/// The items of a list, in order.
#[cycle(owned)]
fn owned_items(alloc: Global, items: &Vec<Borrowed<'_>>) -> Result<Option<Vec<Value>>, AllocError>
    ensures { IfOk result (λ found. option_map (λ list. items_view list.items) found ≡ of_items (borrowed_items items.now.items)) }
{
    let mut found = Vec::with_capacity(alloc, items.len())?;
    for item in items {
        let Some(value) = owned(alloc, item)? else {
            return Ok(None);
        };
        found.push(value)?;
    }
    Ok(Some(found))
}

/// The members of an object by their keys. Of two with one key the last one stays.
#[cycle(owned)]
fn owned_members(
    alloc: Global,
    members: &Vec<(&str, Borrowed<'_>)>,
) -> Result<Option<Map<String, Value>>, AllocError>
    ensures { IfOk result (λ found. option_map (λ map. members_view map.entries) found
        ≡ of_members (borrowed_members members.now.items) no_members) }
{
    let mut found = Map::new(alloc);
    for member in members {
        let key = String::from_str(alloc, member.0)?;
        let Some(value) = owned(alloc, &member.1)? else {
            return Ok(None);
        };
        drop(found.insert(key, value)?);
    }
    Ok(Some(found))
}
