// The entries of a table: numbers of 16 bits, a word each, and of 32 bits, two words each, the low one first.
ghost use Rattle.std.specs.Prelude.{◌≡◌, ℕ, ◌+◌, ◌*◌, ◌≤◌, true, List, length};
ghost use Rattle.std.proofs.lemmas.Bool.{eqb-true};
ghost use Rattle.blocks.specs.Halves.{longs_of};
ghost use Rattle.words.specs.Words.{Within};
ghost use Rattle.words.specs.Entries.{EntryLaws, word_laws, long_laws};
ghost use Rattle.words.specs.Promises.{NthMeets, FromWordMeets};

use crate::{at, piece, read};
use blocks::word;

pub trait Entry: Copy + Ord {
    ghost WORDS: { ℕ };

    // How many words an entry has.
    const WORDS: usize;

    // The entries that words are.
    ghost entries: { List ℕ → List Self };

    // Entry k of a table whose bytes stand side by side.
    fn nth(bytes: &[u8], k: usize) -> Self
        requires { 2 * (WORDS * k) + 2 * WORDS ≤ length bytes.now }
        ensures { NthMeets WORDS entries bytes.now k result };

    // The entry whose first word is word i.
    fn from_word(image: &[u8], i: usize) -> Self
        requires { Within image.now i WORDS }
        ensures { FromWordMeets WORDS entries image.now i result };

    // Entries stand in the order of their words.
    ghost laws: { EntryLaws WORDS entries };

    // Two that are equal are the same.
    ghost exact: { (a b : Self) → Self.PartialEq.eq a b ≡ true → a ≡ b };
}

impl Entry for u16 {
    ghost WORDS = { 1 };

    const WORDS: usize = 1;

    ghost entries = { λ w. w };

    fn nth(bytes: &[u8], k: usize) -> u16 {
        word::word_at(bytes, 2 * k)
    }

    fn from_word(image: &[u8], i: usize) -> u16 {
        read::nth_word(image, i)
    }

    ghost laws = { word_laws };

    ghost exact = { eqb-true };
}

impl Entry for u32 {
    ghost WORDS = { 2 };

    const WORDS: usize = 2;

    ghost entries = { longs_of };

    fn nth(bytes: &[u8], k: usize) -> u32 {
        piece::long_from(bytes, 4 * k)
    }

    fn from_word(image: &[u8], i: usize) -> u32 {
        at::long_at(image, at::offset_of(i))
    }

    ghost laws = { long_laws };

    ghost exact = { eqb-true };
}
