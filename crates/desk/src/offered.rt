//! Which services a desk has opened, for proofs alone.
use std::marker::Brand;

/// Which services a desk has opened: a type that agrees on them has this in its bounds. At run time nothing of it is
/// there. A call that passes `Brand` picks them, by what the desk is opened with.
pub trait Offered {
    ghost use Rattle.std.specs.Prelude.{List};
    ghost use Rattle.desk.specs.Services.{ServiceData};

    ghost services: { List ServiceData };
}

impl Offered for Brand {
    ghost use Rattle.std.specs.Prelude.{[]};

    ghost services = { [] };
}
