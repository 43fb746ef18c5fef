// The words of a line, by the word rule: words are separated by runs of spaces, a double quote opens a stretch in
// which spaces do not separate words and the next one closes it, and the first equals sign outside quotes splits a
// word's key from its value.
#![tactic(auto, unfolding(answers::specs::Pick::pick, answers::specs::Tests::asked))]

ghost use Rattle.words.specs.Telling.{ReadsLine};

mod listing;
mod readers;

// Why a line is not read, the `Err` of `read`: the place of the quote that none closes; or that a list has too few
// places.
#[derive(Clone, Copy, Debug, PartialEq, Eq)]
pub enum ReadError {
    UnclosedQuote(usize),
    TooFewPlaces,
}

// The words of a line into three lists: where each starts, the place after its last byte, and where its key ends;
// returns how many there are. Elements after the last word are unchanged, and a refusal writes nothing. The line comes
// without its closing zero.
//
// Three lists and not one of a struct: they are those of the C function `rekusoyen_raw_line_words`.
pub fn read(
    line: &[u8],
    starts: &mut [u64],
    ends: &mut [u64],
    splits: &mut [u64],
) -> Result<usize, ReadError>
    ensures { ReadsLine line.now starts.old ends.old splits.old result starts.new ends.new splits.new }
{
    let unclosed = readers::stop_at(line, 0, b'"');
    if unclosed < line.len() {
        return Err(ReadError::UnclosedQuote(unclosed));
    }
    let n = listing::count(line);
    let room = starts.len().min(ends.len().min(splits.len()));
    if room < n {
        return Err(ReadError::TooFewPlaces);
    }
    listing::write(line, starts, ends, splits);
    Ok(n)
}
