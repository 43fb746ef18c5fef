// The refusal that has a number of the catalogue. The number is one of the C state, of 64 bits: `TryFrom<u32>` of
// `Refusal` has the table.
ghost use Rattle.std.specs.Prelude.{◌≡◌, ◌≢◌, MatchOption};
ghost use Rattle.answers.specs.Catalogue.{number_of};

use answers::Refusal;

pub(crate) fn by_number(n: u64) -> Option<Refusal>
    ensures { MatchOption result ((refusal : Refusal) → number_of refusal ≢ n) (λ refusal. number_of refusal ≡ n) }
{
    let n = u32::try_from(n).ok()?;
    Refusal::try_from(n).ok()
}
