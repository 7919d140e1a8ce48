//! The token of a hold.
ghost use Rattle.std.specs.Prelude.{◌≡◌};

use rows::refusal::Refusal;

/// Handed out by a hold and spent only by a release that is granted: it cannot be let go otherwise.
pub struct HoldToken {
    pub(super) tag: u64,
}

impl HoldToken {
    /// The tag of the filter that handed it out.
    pub fn tag(&self) -> u64
        ensures value { result ≡ self.now.tag }
    {
        self.tag
    }
}

/// A release that was refused hands the token back.
pub struct RefusedRelease {
    pub refusal: Refusal,
    pub token: HoldToken,
}
