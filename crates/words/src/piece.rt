// Pieces: bytes that hold the entries of a table side by side, low byte first. A piece is passed with no branch in the loop, so that several
// entries go at a time: what is found wrong is noted, and asked for at the end.
ghost use Rattle.std.specs.Prelude.{◌≡◌, ◌+◌, ◌*◌, ◌<◌, length};
ghost use Rattle.blocks.specs.Blocks.{word};
ghost use Rattle.blocks.specs.Image.{blank};
ghost use Rattle.words.specs.Promises.{CopyMeets, LongFromMeets};

use crate::at;
use crate::entry::Entry;
use blocks::word;

// The number of 32 bits whose bytes stand from byte `at` on.
pub fn long_from(s: &[u8], at: usize) -> u32
    requires { at + 3 < length s.now }
    ensures { LongFromMeets s.now at result }
{
    at::low_high(word::word_at(s, at), word::word_at(s, at + 2))
}

// The entries of a table into all of `out`.
pub fn copy<T: Entry>(bytes: &[u8], out: &mut [T])
    requires { length bytes.now ≡ 2 * (T.WORDS * length out.old) }
    ensures { CopyMeets T.entries bytes.now out.old out.new }
{
    for (k, x) in out.iter_mut().enumerate() {
        *x = T::nth(bytes, k);
    }
}

// Are the bytes all zero?
pub(crate) fn zeros(bytes: &[u8]) -> bool
    ensures { result ≡ blank bytes.now }
{
    let mut blank = true;
    for &b in bytes {
        blank &= b == 0;
    }
    blank
}
