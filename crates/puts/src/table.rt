// Tables put as the words of an image.
ghost use Rattle.std.specs.Prelude.{◌*◌, length};
ghost use Rattle.words.specs.Words.{Within};
ghost use Rattle.puts.specs.Promises.{PutMeets, PutZerosMeets};

use crate::word::{self, Put};
use words::at;

// The entries of a table as the words from i on.
pub fn put<T: Put>(image: &mut [u8], i: usize, table: &[T])
    requires { Within image.old i (T.WORDS * length table.now) }
    ensures { PutMeets T.words image.old i table.now image.new }
{
    let mut at = at::offset_of(i);
    for &x in table {
        at = x.put(image, at);
    }
}

// Zero for every word from i on, to the end of the last block.
pub fn put_zeros(image: &mut [u8], i: usize)
    requires { Within image.old i 0 }
    ensures { PutZerosMeets image.old i image.new }
{
    let n = 253 * (image.len() / 512) - i;
    let mut at = at::offset_of(i);
    for _ in 0..n {
        word::put_word(image, at, 0);
        at = at::next(at);
    }
}
