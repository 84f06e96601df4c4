//! What a worker of a server needs of its seat, and a server of all seats.
ghost use Rattle.std.specs.Prelude.{◌≡◌, ◌≤◌, ◌<◌, ℕ, List, length, slice_get, Some, IfOk, IfSome, vec_len};
ghost use Rattle.std.specs.List.{AllByRecursion};
ghost use Rattle.service.specs.Asked.{RequestData, request_data, ResponseData, response_data};
ghost use Rattle.service.specs.declared.upkeep.Upkeep.{Upkeep as UpkeepData};
ghost use Rattle.service_profile.specs.Events.{History};
ghost use Rattle.http_front.specs.Asked.{place_of_name};

use book::Book;
use service::{Gate, Request, Response, Upkeep};
use std::alloc::{AllocError, Global};
use std::sync::Wait;

/// A seat of a desk, by which one worker asks the desk's services. Each kind of desk, with its books behind locks or in slots,
/// has seats of its own kind, which say what a request by them is answered, and what a desk is that was closed.
pub trait DeskSeat<Desk>: Drop {
    // the names of the desk's services, in their order
    ghost names_of: { Desk → List (List ℕ) };

    // whether a service of the desk stands at a place
    ghost has: { Desk → ℕ → Type 0 };

    // whether the seat is one of the desk's
    ghost sits_at: { Desk → Self → Type 0 };

    // how a desk, a seat before a request, what the service does for its upkeep, its place, the moment and the request are related to
    // what is answered and the seat after it
    ghost asks: { Desk → Self → UpkeepData → ℕ → ℕ → RequestData → ResponseData → Self → Type 0 };

    // how many seats a desk has dealt
    ghost dealt: { Desk → ℕ };

    // how a desk that has dealt none and a number are related to the desk that has dealt so many, and its seats
    ghost deals: { Desk → ℕ → Desk → List Self → Type 0 };

    // how a desk and all its seats are related to the books that it hands out when it is closed, and the counts of the seats' entries
    ghost closes: { Desk → List Self → List History → List ℕ → Type 0 };

    /// How many services the desk has.
    fn service_count(desk: &Desk) -> usize
        ensures count { result ≡ length (names_of desk.now) }
        ensures held { (place : ℕ) → place < result → has desk.now place };

    /// The name of the service at a place.
    fn service_name(desk: &Desk, place: usize) -> &str
        requires within { place < length (names_of desk.now) }
        ensures { slice_get (names_of desk.now) place ≡ Some result.now };

    /// Where the desk has the service of this name, if there is one. It takes no memory.
    fn find(desk: &Desk, service: &str) -> Option<usize>
        ensures found { result ≡ place_of_name (names_of desk.now) service.now }
        ensures held { IfSome result (has desk.now) };

    /// Asks the service at a place of the desk, which does this for its own upkeep, at a moment in milliseconds. A report passes
    /// the gate in its middle.
    fn ask<R: Wait, G: Gate>(
        &mut self,
        rt: &R,
        alloc: Global,
        desk: &Desk,
        upkeep: Upkeep,
        place: usize,
        moment: u64,
        request: Request,
        gate: &G,
    ) -> Response
        requires seat { sits_at desk.now self.old }
        requires place { has desk.now place }
        ensures asked { asks desk.now self.old upkeep place moment (request_data request) (response_data result) self.new }
        ensures seat { sits_at desk.now self.new };

    /// Takes so many seats of a desk that has dealt none. The error is want of memory.
    fn deal(alloc: Global, desk: &mut Desk, count: u64) -> Result<Vec<Self>, AllocError>
        requires fresh { dealt desk.old ≡ 0 }
        requires few { count ≤ 64 }
        ensures deals { IfOk result (λ seats. deals desk.old count desk.new seats.items) }
        ensures all { IfOk result (λ seats. (vec_len seats ≡ count) × (dealt desk.new ≡ count)) }
        ensures here { IfOk result (λ seats. AllByRecursion (sits_at desk.new) seats.items) };

    /// Closes a desk to which all its seats came back, and hands out its books, and how many entries each seat has counted.
    /// The error is want of memory.
    fn close(
        alloc: Global,
        desk: Desk,
        seats: Vec<Self>,
    ) -> Result<(Vec<Book>, Vec<u64>), AllocError>
        requires here { AllByRecursion (sits_at desk) seats.items }
        requires all { vec_len seats ≡ dealt desk }
        ensures { IfOk result (λ left. closes desk seats.items left.0.items left.1.items) };
}
