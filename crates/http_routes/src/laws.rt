//! What follows from the definitions alone.
ghost use Rattle.std.specs.Prelude.{◌≡◌, ℕ, List, Some};
ghost use Rattle.std.specs.Str.{IsUtf8};
ghost use Rattle.http_routes.specs.Finding.{Asked, asked_at};
ghost use Rattle.http_routes.specs.Patterns.{IsBytes, IsRead};

/// What the router's search finds in a path is what the path's segments name.
pub fn found_routes_are_named()
    ensures { (path : List ℕ) (asked : Asked) → IsBytes path → asked_at path ≡ Some asked → IsRead path asked }
{}

/// A path in UTF-8 whose segments name a route, a service and, for the journal, a number finds them.
pub fn named_routes_are_found()
    ensures { (path : List ℕ) (asked : Asked) → IsBytes path → IsUtf8 path → IsRead path asked → asked_at path ≡ Some asked }
{}
