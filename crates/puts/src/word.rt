// One word, or an entry of a table, put among bytes, low byte first.
ghost use Rattle.std.specs.Prelude.{◌≡◌, ℕ, ◌+◌, ◌<◌, List, length};
ghost use Rattle.blocks.specs.Halves.{low_high_lem};
ghost use Rattle.words.specs.Words.{offset, Within};
ghost use Rattle.puts.specs.Puts.{stored, PutLaws, word_laws, long_laws};
ghost use Rattle.puts.specs.Promises.{PutEntryMeets, NextEntryMeets};

use words::at;
use words::entry::Entry;

// The word w put at byte `at`; all other bytes stay.
pub(crate) fn put_word(s: &mut [u8], at: usize, w: u16)
    requires { at + 1 < length s.old }
    ensures { s.new ≡ stored s.old at w }
{
    s[at] = (w % 256) as u8;
    s[at + 1] = (w / 256) as u8;
}

// An entry that can be put.
pub trait Put: Entry {
    // The words of entries.
    ghost words: { List Self → List ℕ };

    // The entry put as the words from the one at byte `at` on: the byte at which the word behind it stands.
    fn put(self, image: &mut [u8], at: usize) -> usize
        requires { (i : ℕ) × (at ≡ offset i) × Within image.old i Self.WORDS }
        ensures put { PutEntryMeets Self.WORDS words image.old at self image.new }
        ensures next { NextEntryMeets Self.WORDS at result };

    // Words stand in the order of their entries.
    ghost laws: { PutLaws Self.WORDS words };
}

impl Put for u16 {
    ghost words = { λ l. l };

    fn put(self, image: &mut [u8], at: usize) -> usize {
        put_word(image, at, self);
        at::next(at)
    }

    ghost laws = { word_laws };
}

impl Put for u32 {
    ghost words = { low_high_lem };

    fn put(self, image: &mut [u8], at: usize) -> usize {
        put_word(image, at, (self % 65536) as u16);
        let high = at::next(at);
        put_word(image, high, (self / 65536) as u16);
        at::next(high)
    }

    ghost laws = { long_laws };
}
