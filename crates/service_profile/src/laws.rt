//! Laws of the definitions.
ghost use Rattle.std.specs.Prelude.{◌≡◌};
ghost use Rattle.service_profile.specs.Configured.{default_parts};

use crate::configuration::ConfigParts;

/// The defaults of the code are those that the definitions state.
pub fn defaults_are_stated()
    ensures { ConfigParts.DEFAULT ≡ default_parts }
{}
