//! What follows from the definitions alone.
ghost use Rattle.std.specs.Prelude.{◌≢◌, ◌<◌, ◌^◌, ℕ};
ghost use Rattle.counted_io.specs.Counting.{one_more};

/// One more call makes another count, whatever the count was: so a contract that says "one more" says that a call was
/// made.
pub fn one_more_is_another()
    ensures { (count : ℕ) → count < 2 ^ 64 → one_more count ≢ count }
{}
