// The words of a line: counted, and written into the caller's three lists, as the C function takes them.
ghost use Rattle.std.specs.Prelude.{◌≡◌, [], eqb, ◌≤◌, length, get_or, set, MatchOption};
ghost use Rattle.words.specs.Words.{words_of, words_on, split_of, NextWord, WordsWritten};

use crate::readers;

// A word: where it starts, and the place after its last byte.
#[derive(Clone, Copy)]
struct Word {
    start: usize,
    end: usize,
}

// Is there a quote at a place? Past the end there is none.
fn quote_at(line: &[u8], at: usize) -> bool
    ensures { result ≡ eqb (get_or line.now at 0) 34 }
{
    at < line.len() && line[at] == b'"'
}

// The next word from a place outside quotes on. There is none if only spaces are left, or if it has a quote that none
// closes.
fn next_word(line: &[u8], at: usize) -> Option<Word>
    requires { at ≤ length line.now }
    ensures { MatchOption result (words_on line.now at ≡ []) (λ w. NextWord line.now at w.start w.end) }
{
    let start = at + line[at..].iter().position(|byte| *byte != b' ')?;
    let end = readers::stop_at(line, start, b' ');
    if quote_at(line, end) {
        None
    } else {
        Some(Word { start, end })
    }
}

// How many words a line has. `count` and `write` each walk by `while let`, which names the search for a word once:
// `successors(next_word(line, 0), |word| next_word(line, word.end))` names it twice in each, and an `Iterator` of our
// own needs two ghost clauses and the bound of the place.
pub(crate) fn count(line: &[u8]) -> usize
    ensures { result ≡ length (words_of line.now) }
{
    let mut n = 0;
    let mut at = 0;
    while let Some(word) = next_word(line, at) {
        n += 1;
        at = word.end;
    }
    n
}

// Puts a number at a place of a list, if it has that place.
fn put(list: &mut [u64], at: usize, v: usize)
    ensures { list.new ≡ set list.old at v }
{
    if at < list.len() {
        list[at] = v as u64;
    }
}

// Where the key of a word ends that begins at a place and ends before another.
fn split_of(line: &[u8], at: usize, end: usize) -> usize
    requires { end ≤ length line.now }
    ensures { result ≡ split_of line.now at end }
{
    readers::stop_at(&line[..end], at, b'=')
}

// The words into three lists, as far as each goes.
pub(crate) fn write(line: &[u8], starts: &mut [u64], ends: &mut [u64], splits: &mut [u64])
    ensures { WordsWritten (words_of line.now) 0 starts.old ends.old splits.old starts.new ends.new splits.new }
{
    let mut n = 0;
    let mut at = 0;
    while let Some(word) = next_word(line, at) {
        put(starts, n, word.start);
        put(ends, n, word.end);
        put(splits, n, split_of(line, word.start, word.end));
        n += 1;
        at = word.end;
    }
}
