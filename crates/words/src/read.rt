// Words of an image read, by their number among the words of all blocks. A table is read in pieces: the part of it that lies in one block is
// bytes side by side.
ghost use Rattle.std.specs.Prelude.{◌+◌, ◌*◌, ◌<◌, length};
ghost use Rattle.blocks.specs.Blocks.{run, word, content};
ghost use Rattle.words.specs.Words.{Within};
ghost use Rattle.words.specs.Passing.{Front};
ghost use Rattle.words.specs.Promises.{NthWordMeets, ReadMeets, BlankFromMeets};

use crate::entry::Entry;
use crate::{at, piece};
use blocks::word;

// Word i.
pub fn nth_word(image: &[u8], i: usize) -> u16
    requires { Within image.now i 1 }
    ensures { NthWordMeets image.now i result }
{
    word::word_at(image, at::offset_of(i))
}

// The entries from word i on into the front of `out`, as far as the block of word i goes: how many. An entry that begins in one block and
// ends in the next is read by itself.
fn some<T: Entry>(image: &[u8], i: usize, out: &mut [T]) -> usize
    requires { Within image.now i (T.WORDS * length out.old) × (0 < length out.old) }
    ensures { Front (T.entries (run i (T.WORDS * length out.old) (content image.now))) out.old out.new result }
{
    let m = at::together(i, T::WORDS * out.len()) / T::WORDS;
    if m == 0 {
        out[0] = T::from_word(image, i);
        return 1;
    }
    piece::copy(at::bytes_of(image, i, T::WORDS * m), &mut out[..m]);
    m
}

// The entries from word i on into all of `out`.
pub fn read<T: Entry>(image: &[u8], i: usize, out: &mut [T])
    requires { Within image.now i (T.WORDS * length out.old) }
    ensures { ReadMeets T.WORDS T.entries image.now i out.old out.new }
{
    let mut k: usize = 0;
    while k < out.len() {
        k += some(image, i + T::WORDS * k, &mut out[k..]);
    }
}

// Are the words from i on, to the end of the last block, all zero?
pub fn blank_from(image: &[u8], i: usize) -> bool
    requires { Within image.now i 0 }
    ensures { BlankFromMeets image.now i result }
{
    let n = 253 * (image.len() / 512);
    let mut k: usize = i;
    while k < n {
        let m = at::together(k, n - k);
        if piece::zeros(at::bytes_of(image, k, m)) {
            k += m;
        } else {
            return false;
        }
    }
    true
}
