//! Proof-only functions: they say something of the crate's constants, and do nothing.
ghost use Rattle.std.specs.Prelude.{◌≡◌};
ghost use Rattle.fw_lanes.specs.Masked.{most_places};

use crate::mask::Mask;

/// The constant is the limit that the contracts name.
pub fn limits_agree()
    ensures { Mask.MOST_PLACES ≡ most_places }
{}
