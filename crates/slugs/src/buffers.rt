// Bytes put into a buffer, as far as it goes.
ghost use Rattle.std.specs.Prelude.{◌∷◌, ◌++◌};
ghost use Rattle.slugs.specs.Bytes.{equals};
ghost use Rattle.slugs.specs.Stored.{Stored};
ghost use Rattle.slugs.specs.Joining.{space_after};

use fields::copying;

// s, from a place on; the place after it.
pub fn put(d: &mut [u8], at: usize, s: &[u8]) -> usize
    ensures { Stored d.old at s.now d.new result }
{
    let from = at.min(d.len());
    let count = s.len().min(d.len() - from);
    copying::copy(&mut d[from..], s);
    from + count
}

// s after a text of n bytes, with a space between if there is text.
pub fn put_after(d: &mut [u8], n: usize, s: &[u8]) -> usize
    ensures { Stored d.old n (space_after n ++ s.now) d.new result }
{
    if n == 0 {
        return put(d, 0, s);
    }
    let at = put(d, n, b" ");
    put(d, at, s)
}

// A key, an equals sign and a value after a text of n bytes.
pub fn put_pair(d: &mut [u8], n: usize, key: &[u8], value: &[u8]) -> usize
    ensures { Stored d.old n (space_after n ++ (key.now ++ (equals ∷ value.now))) d.new result }
{
    let at = put_after(d, n, key);
    let mark = put(d, at, b"=");
    put(d, mark, value)
}
