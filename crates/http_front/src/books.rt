//! Books of services, each under its name.
ghost use Rattle.std.specs.Prelude.{◌≡◌, ◌<◌, length, position, bytes_eq, string_bytes, IfSome};

use crate::answerer::Answerer;
use book::Book;
use service::{ONLY_SEAT, OpenGate, Request, Response, Upkeep, ask};
use std::alloc::Global;

/// A service: its name, its book, and what it does for its own upkeep.
#[derive(Drop)]
pub struct NamedBook {
    pub name: String,
    pub book: Book,
    pub upkeep: Upkeep,
}

/// Books of services, asked one request at a time. Of two services of one name the first is asked.
#[derive(Drop)]
pub struct Books {
    alloc: Global,
    pub services: Vec<NamedBook>,
}

impl Books {
    /// Answers for these services.
    pub fn new(alloc: Global, services: Vec<NamedBook>) -> Self
        ensures { result.services ≡ services }
    {
        Books { alloc, services }
    }
}

/// Where the first service of a name stands.
fn place_of(services: &[NamedBook], name: &str) -> Option<usize>
    ensures found { result ≡ position (λ service. bytes_eq (string_bytes service.name) name.now) services.now }
    ensures held { IfSome result (λ place. place < length services.now) }
{
    services
        .iter()
        .position(|service| service.name.as_str() == name)
}

impl Answerer for Books {
    ghost use Rattle.std.specs.Prelude.{◌<◌, length};
    ghost use Rattle.http_front.specs.Named.{names_in, IsAskedOf};

    ghost names_of = { λ books. names_in books.services.items };

    ghost has = { λ books place. place < length books.services.items };

    ghost answers = { λ old place moment wanted response new. IsAskedOf old.services.items place moment wanted response new.services.items };

    fn count(&self) -> usize {
        self.services.len()
    }

    fn name(&self, place: usize) -> &str {
        self.services[place].name.as_str()
    }

    fn find(&self, service: &str) -> Option<usize> {
        place_of(&self.services, service)
    }

    fn ask(&mut self, place: usize, moment: u64, request: Request) -> Response {
        let alloc = self.alloc;
        let named = &mut self.services[place];
        ask(
            alloc,
            &mut named.book,
            &ONLY_SEAT,
            named.upkeep,
            moment,
            request,
            &OpenGate,
        )
    }
}
