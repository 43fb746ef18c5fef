// An address that may be given.
ghost use Rattle.std.specs.Prelude.{◌≡◌};
ghost use Rattle.guest.specs.Addresses.{amount_of};

use crate::GuestAddress;

// The address that is given, or 0 if none is.
#[tactic(auto, unfolding(crate::specs::Addresses::amount_of))]
pub fn amount(given: Option<GuestAddress>) -> u64
    ensures { result ≡ amount_of given }
{
    given.map_or(0, |a| a.0)
}
