//! What a context says of an outcome.
ghost use Rattle.std.specs.Prelude.{◌≡◌};
ghost use Rattle.helpers.specs.Layout.{kind_number, method_number, context_of};
ghost use Rattle.helpers.specs.Names.{kind_named, method_named};

use crate::writer::Writer;
use bpf_profile::{FRONT_SIZE, RECORD_SIZE};

/// How a call ended.
#[derive(Clone, Copy)]
pub enum Kind {
    Response,
    Timeout,
    Refused,
    Reset,
    Error,
}

impl Kind {
    /// The kind of a name: `response`, `timeout`, `refused`, `reset` or `error`. None for any other
    /// text.
    #[tactic(auto, unfolding(crate::specs::Names::kind_named))]
    pub fn named(name: &str) -> Option<Kind>
        ensures { result ≡ kind_named name.now }
    {
        match name {
            "response" => Some(Kind::Response),
            "timeout" => Some(Kind::Timeout),
            "refused" => Some(Kind::Refused),
            "reset" => Some(Kind::Reset),
            "error" => Some(Kind::Error),
            _ => None,
        }
    }

    fn number(self) -> u32
        ensures { result ≡ kind_number self }
    {
        match self {
            Kind::Response => 0,
            Kind::Timeout => 1,
            Kind::Refused => 2,
            Kind::Reset => 3,
            Kind::Error => 4,
        }
    }
}

/// The method of a request (RFC 9110, section 9.3, and RFC 5789).
#[derive(Clone, Copy)]
pub enum Method {
    Other,
    Get,
    Head,
    Post,
    Put,
    Delete,
    Connect,
    Options,
    Trace,
    Patch,
}

impl Method {
    /// The method that has this name, in capitals, as `GET`. Any other text stands for `Other`.
    #[tactic(auto, unfolding(crate::specs::Names::method_named))]
    pub fn named(name: &str) -> Method
        ensures { result ≡ method_named name.now }
    {
        match name {
            "GET" => Method::Get,
            "HEAD" => Method::Head,
            "POST" => Method::Post,
            "PUT" => Method::Put,
            "DELETE" => Method::Delete,
            "CONNECT" => Method::Connect,
            "OPTIONS" => Method::Options,
            "TRACE" => Method::Trace,
            "PATCH" => Method::Patch,
            _ => Method::Other,
        }
    }

    fn number(self) -> u32
        ensures { result ≡ method_number self }
    {
        match self {
            Method::Other => 0,
            Method::Get => 1,
            Method::Head => 2,
            Method::Post => 3,
            Method::Put => 4,
            Method::Delete => 5,
            Method::Connect => 6,
            Method::Options => 7,
            Method::Trace => 8,
            Method::Patch => 9,
        }
    }
}

/// The fields of a context, as numbers.
#[derive(Clone, Copy)]
pub struct Fields {
    pub kind: Kind,
    pub status: u32,
    /// In milliseconds.
    pub duration: u64,
    pub request_bytes: u64,
    pub response_bytes: u64,
    pub attempt: u32,
    pub method: Method,
    pub flags: u64,
    pub body_length: u64,
    /// The first bytes of the body; zeros fill the rest.
    pub front: [u8; FRONT_SIZE],
}

impl Fields {
    /// The context with these fields.
    #[tactic(auto, unfolding(crate::specs::Layout::context_of))]
    pub fn context(&self) -> [u8; RECORD_SIZE]
        ensures { result ≡ context_of self.now }
    {
        let mut context = Writer::new();
        context.push_u32(self.kind.number());
        context.push_u32(self.status);
        context.push_u64(self.duration);
        context.push_u64(self.request_bytes);
        context.push_u64(self.response_bytes);
        context.push_u32(self.attempt);
        context.push_u32(self.method.number());
        context.push_u64(self.flags);
        context.push_u64(self.body_length);
        context.push_u64(0);
        context.push(&self.front);
        context.bytes()
    }
}
