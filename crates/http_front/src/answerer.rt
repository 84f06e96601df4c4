//! Who answers.
ghost use Rattle.std.specs.Prelude.{◌≡◌, ◌<◌, ℕ, List, length, slice_get, Some, IfSome};
ghost use Rattle.service.specs.Asked.{RequestData, request_data, acquire, report, release, install, move, reset, read, page, cut, roll, ResponseData, response_data};
ghost use Rattle.http_front.specs.Asked.{place_of_name};

use book::State;
use bpf_profile::Layout;
use service::{Report, Request, Response};

/// Answers what services are asked for. A service is found once by its name, and then asked at its place, at a moment
/// in milliseconds. Want of memory is a refusal like others. Below the four functions that an answerer has to have, and one by which it is told of reports that can't be used, stands
/// one for each route of a service, which asks by `ask` and is the same for every answerer; the front asks by `ask` alone.
pub trait Answerer {
    // the names of the services, in their order
    ghost names_of: { Self → List (List ℕ) };

    // whether a service stands at a place
    ghost has: { Self → ℕ → Type 0 };

    // how a state, a service's place, a moment and what is asked for are related to what is answered and the state after it
    ghost answers: { Self → ℕ → ℕ → RequestData → ResponseData → Self → Type 0 };

    /// How many services there are.
    fn count(&self) -> usize
        ensures count { result ≡ length (names_of self.now) }
        ensures held { (place : ℕ) → place < result → has self.now place };

    /// The name of the service at a place.
    fn name(&self, place: usize) -> &str
        requires within { place < length (names_of self.now) }
        ensures { slice_get (names_of self.now) place ≡ Some result.now };

    /// Where the service of this name stands, if there is one. It takes no memory.
    fn find(&self, service: &str) -> Option<usize>
        ensures found { result ≡ place_of_name (names_of self.now) service.now }
        ensures held { IfSome result (has self.now) };

    /// Asks the service at a place, at a moment in milliseconds.
    fn ask(&mut self, place: usize, moment: u64, request: Request) -> Response
        requires held { has self.old place }
        ensures answered { answers self.old place moment (request_data request) (response_data result) self.new }
        ensures names { names_of self.new ≡ names_of self.old };

    /// Told that the body of a report on a call of the service at a place can't be used, at a moment in milliseconds.
    fn refused(&self, _place: usize, _moment: u64, _body: &[u8]) {}

    /// Asks for a ticket, before a call.
    final fn acquire(&mut self, place: usize, moment: u64) -> Response
        requires held { has self.old place }
        ensures { answers self.old place moment acquire (response_data result) self.new }
    {
        self.ask(place, moment, Request::Acquire)
    }

    /// Judges the outcome of a call, and ends its ticket.
    final fn report(&mut self, place: usize, moment: u64, reported: Report) -> Response
        requires held { has self.old place }
        ensures { answers self.old place moment (report reported) (response_data result) self.new }
    {
        self.ask(place, moment, Request::Report(reported))
    }

    /// Ends a ticket without an outcome.
    final fn release(&mut self, place: usize, moment: u64, ticket: u64) -> Response
        requires held { has self.old place }
        ensures { answers self.old place moment (release ticket) (response_data result) self.new }
    {
        self.ask(place, moment, Request::Release(ticket))
    }

    /// Verifies the program of this bytecode on records of a layout, and makes it the current version.
    final fn install(
        &mut self,
        place: usize,
        moment: u64,
        program: Vec<u8>,
        layout: Layout,
    ) -> Response
        requires held { has self.old place }
        ensures { answers self.old place moment (install program.items layout) (response_data result) self.new }
    {
        self.ask(place, moment, Request::Install { program, layout })
    }

    /// Moves the breaker to a state.
    final fn transition(&mut self, place: usize, moment: u64, state: State) -> Response
        requires held { has self.old place }
        ensures { answers self.old place moment (move state) (response_data result) self.new }
    {
        self.ask(place, moment, Request::Move(state))
    }

    /// Moves the breaker to CLOSED.
    final fn reset(&mut self, place: usize, moment: u64) -> Response
        requires held { has self.old place }
        ensures { answers self.old place moment reset (response_data result) self.new }
    {
        self.ask(place, moment, Request::Reset)
    }

    /// Tells how the service stands.
    final fn read(&mut self, place: usize, moment: u64) -> Response
        requires held { has self.old place }
        ensures { answers self.old place moment read (response_data result) self.new }
    {
        self.ask(place, moment, Request::Read)
    }

    /// Gives at most 100 entries of the journal, from this number on.
    final fn page(&mut self, place: usize, moment: u64, from: u64) -> Response
        requires held { has self.old place }
        ensures { answers self.old place moment (page from) (response_data result) self.new }
    {
        self.ask(place, moment, Request::Page(from))
    }

    /// Hands out all entries of the journal, which begins anew.
    final fn cut(&mut self, place: usize, moment: u64) -> Response
        requires held { has self.old place }
        ensures { answers self.old place moment cut (response_data result) self.new }
    {
        self.ask(place, moment, Request::Cut)
    }

    /// Hands out the entries of the journal up to this number. The journal goes on behind them.
    final fn roll(&mut self, place: usize, moment: u64, last: u64) -> Response
        requires held { has self.old place }
        ensures { answers self.old place moment (roll last) (response_data result) self.new }
    {
        self.ask(place, moment, Request::Roll(last))
    }
}
