// The words of a line, under a C name. The three lists of places are those of the C function.
ghost use Rattle.std.specs.Prelude.{◌≡◌, length};
ghost use Rattle.words.specs.Telling.{words_number, words_values};
ghost use Rattle.capi.specs.Values.{Tells};
ghost use Rattle.capi_lines.specs.LineWords.{LineWords};

use answers::Refusal;
use words::ReadError;

// The number of what reading says; how many words, or the place of the unclosed quote, into `out`.
#[tactic(auto, unfolding(words::specs::Telling::words_values))]
fn tell(out: &mut [u64], told: Result<usize, ReadError>) -> u32
    requires { length out.old ≡ 1 }
    ensures { Tells (words_number told) (words_values told) out.old result out.new }
{
    match told {
        Ok(n) => {
            out[0] = n as u64;
            0
        }
        Err(ReadError::UnclosedQuote(place)) => {
            out[0] = place as u64;
            u32::from(Refusal::UnclosedQuote)
        }
        Err(ReadError::TooFewPlaces) => u32::from(Refusal::TooFewPlaces),
    }
}

// The words of a line without its zero: where each starts, the place after its last byte, and where its key ends, into
// three lists. `out` has one place: how many words there are, or the place of a quote that none closes.
#[unsafe(no_mangle)]
pub extern "C" fn rekusoyen_raw_line_words(
    text: &[u8],
    starts: &mut [u64],
    ends: &mut [u64],
    splits: &mut [u64],
    out: &mut [u64],
) -> u32
    ensures { LineWords text.now starts.old ends.old splits.old out.old result starts.new ends.new splits.new out.new }
{
    if out.len() != 1 {
        return u32::from(Refusal::NoRoom);
    }
    let told = words::read(text, starts, ends, splits);
    tell(out, told)
}
