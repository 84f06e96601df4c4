//! The list of services. Every error is want of memory, and leaves a part of what was to be written.
ghost use Rattle.std.specs.Prelude.{◌≡◌, length, map, IfOk, OnOk};
ghost use Rattle.serde_json.specs.Data.{array};
ghost use Rattle.serde_json.specs.View.{items_of};
ghost use Rattle.service.specs.Asked.{response_data};
ghost use Rattle.answers.specs.Listing.{service_data, service_list, services_data, services_body};
ghost use Rattle.answers.specs.Writing.{Adds, tokens_of};

use crate::members::{Member, put_members};
use crate::responses::put_response;
use json::Writer;
use service::Response;
use std::alloc::{AllocError, Global};

/// For how many bytes of each service memory is taken at first: most have fewer.
const ROOM: usize = 256;

/// Writes a service: its name, and its answer to a reading.
fn put_service(out: &mut Writer, name: &str, response: &Response) -> Result<(), AllocError>
    ensures { OnOk result (Adds (tokens_of (service_data name.now (response_data response.now))) out.old out.new) }
{
    out.begin_object()?;
    put_members(out, &[Member::Text("name", name)])?;
    out.key("state")?;
    put_response(out, response)?;
    out.end_object()
}

/// Writes each service, in order.
fn put_services(out: &mut Writer, names: &[&str], responses: &[Response]) -> Result<(), AllocError>
    requires { length responses.now ≡ length names.now }
    ensures { OnOk result (Adds (tokens_of (array (items_of (service_list (map (λ name. name.now) names.now) (map response_data responses.now))))) out.old out.new) }
{
    out.begin_array()?;
    for place in 0..names.len() {
        put_service(out, names[place], &responses[place])?;
    }
    out.end_array()
}

/// Writes the body of the list of services: the name of each, and the object that its answer to a reading is by itself.
fn put_list(out: &mut Writer, names: &[&str], responses: &[Response]) -> Result<(), AllocError>
    requires { length responses.now ≡ length names.now }
    ensures { OnOk result (Adds (tokens_of (services_data (map (λ name. name.now) names.now) (map response_data responses.now))) out.old out.new) }
{
    out.begin_object()?;
    out.key("services")?;
    put_services(out, names, responses)?;
    out.end_object()
}

/// Writes the body of the list of services, by their names and what each answered to a reading, both in one order. It is
/// compact JSON (RFC 8259). The only error is want of memory.
pub fn services_body(
    alloc: Global,
    names: &[&str],
    responses: &[Response],
) -> Result<Vec<u8>, AllocError>
    requires { length responses.now ≡ length names.now }
    ensures { IfOk result (λ text. text.items ≡ services_body (map (λ name. name.now) names.now) (map response_data responses.now)) }
{
    let room = names.len().saturating_mul(ROOM);
    let mut out = Writer::new(Vec::with_capacity(alloc, room)?);
    put_list(&mut out, names, responses)?;
    Ok(out.into_inner())
}
