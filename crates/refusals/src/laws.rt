//! Laws over the table of refusals.
ghost use Rattle.std.specs.Prelude.{◌≡◌};
ghost use Rattle.refusals.specs.declared.RefusalNumber.{RefusalNumber};
ghost use Rattle.refusals.specs.Table.{number_of};

/// No two refusals share a number.
pub fn numbers_are_distinct()
    ensures { (a b : RefusalNumber) → number_of a ≡ number_of b → a ≡ b }
{}
