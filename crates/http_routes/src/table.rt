//! The table of routes.
ghost use Rattle.std.specs.Prelude.{◌≡◌, bytes_eq};
ghost use Rattle.http_routes.specs.Table.{method_of, word_of};

/// A route of the HTTP interface: what is asked of a service, by the last word of the path
/// `/v1/services/{service}/..`, or of all of them, by the path `/v1/services`.
#[derive(Clone, Copy, Debug, PartialEq, Eq)]
pub enum Route {
    /// The names of all services, and how each stands: `/v1/services`.
    Services,
    /// A ticket, before a call.
    Acquire,
    /// To judge the outcome of a call, and to end its ticket.
    Report,
    /// To end a ticket without an outcome.
    Release,
    /// To move the breaker to a state.
    Transition,
    /// To move the breaker to CLOSED.
    Reset,
    /// All entries; the book opens anew.
    Cut,
    /// The entries up to a number; the book goes on.
    Roll,
    /// To verify a program, and to make it the current version.
    Program,
    /// How the service stands.
    State,
    /// A page of the journal, from an entry's number on: `/v1/services/{service}/journal/{from}`.
    Journal,
}

impl Route {
    /// The one method that the route has (RFC 9110, section 9), as a request line and the field `Allow`
    /// write it.
    pub fn method(self) -> &'static str
        ensures { result.now ≡ method_of self }
    {
        match self {
            Route::Services => "GET",
            Route::Acquire => "POST",
            Route::Report => "POST",
            Route::Release => "POST",
            Route::Transition => "POST",
            Route::Reset => "POST",
            Route::Cut => "POST",
            Route::Roll => "POST",
            Route::Program => "PUT",
            Route::State => "GET",
            Route::Journal => "GET",
        }
    }

    /// Whether the route has the method of a request. Methods are case-sensitive (RFC 9110, section 9.1).
    pub fn takes(self, method: &[u8]) -> bool
        ensures { result ≡ bytes_eq method.now (method_of self) }
    {
        method == self.method().as_bytes()
    }

    /// The segment of the path that names the route.
    pub fn word(self) -> &'static str
        ensures { result.now ≡ word_of self }
    {
        match self {
            Route::Services => "services",
            Route::Acquire => "acquire",
            Route::Report => "report",
            Route::Release => "release",
            Route::Transition => "transition",
            Route::Reset => "reset",
            Route::Cut => "cut",
            Route::Roll => "roll",
            Route::Program => "program",
            Route::State => "state",
            Route::Journal => "journal",
        }
    }
}
