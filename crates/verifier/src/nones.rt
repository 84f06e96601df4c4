//! Lists in which nothing stands yet.
ghost use Rattle.std.specs.Prelude.{◌≡◌, replicate, None, IfOk};

use std::alloc::{AllocError, Global};

/// A list of so many Nones.
pub(crate) fn nones<T>(alloc: Global, count: usize) -> Result<Vec<Option<T>>, AllocError>
    ensures { IfOk result (λ list. list.items ≡ replicate count None) }
{
    let mut list = Vec::with_capacity(alloc, count)?;
    for _place in 0..count {
        list.push_reserved(None);
    }
    Ok(list)
}
