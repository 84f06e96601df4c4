//! The list, which has no bytes.
ghost use Rattle.std.specs.Prelude.{◌≡◌, List, [], ◌∷◌, ◌++◌};
ghost use Rattle.std.specs.Borrow.{ftrue};

use std::marker::{Model, PhantomData};

/// The pieces so far, the oldest first. A clause reads them as `items`. At run time nothing of it is there.
#[derive(Drop)]
pub struct GhostList<T> {
    of: PhantomData<T>,
    pub ghost items: { List T },
}

impl<T> Model for GhostList<T> {
    ghost also_owns = { λ _. ftrue };
}

impl<T> GhostList<T> {
    /// The empty list.
    pub fn new() -> GhostList<T>
        ensures { result.items ≡ [] }
    {
        GhostList { of: PhantomData }
    }

    /// The list with one piece more behind it. The piece is only looked at.
    pub fn and(&self, _piece: &T) -> GhostList<T>
        ensures { result.items ≡ self.now.items ++ _piece.now ∷ [] }
    {
        GhostList { of: PhantomData }
    }
}
