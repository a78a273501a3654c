// Where the words of an image stand: one by one, with no division for a word, and together as far as a block goes.
ghost use Rattle.std.specs.Prelude.{◌≡◌, ◌+◌, ◌*◌, ◌%◌, ◌<◌, ◌≤◌, length};
ghost use Rattle.blocks.specs.Blocks.{word};
ghost use Rattle.words.specs.Words.{after, Within};
ghost use Rattle.words.specs.Promises.{OffsetOfMeets, NextMeets, TogetherMeets, BytesOfMeets, LongAtMeets};

use blocks::word;

// The byte at which word i stands.
pub fn offset_of(i: usize) -> usize
    requires { i < 4611686018427387904 }
    ensures { OffsetOfMeets i result }
{
    i / 253 * 512 + 2 + 2 * (i % 253)
}

// The byte at which the word behind the one at `at` stands.
#[tactic(auto, unfolding(crate::specs::Words::after, trees::specs::Lists::pick))]
pub fn next(at: usize) -> usize
    requires { at < 9223372036854775808 }
    ensures { NextMeets at result }
{
    if at % 512 == 506 { at + 8 } else { at + 2 }
}

// How many of the n words from word i on stand side by side: all, or as many as the block of word i has from there on.
pub fn together(i: usize, n: usize) -> usize
    requires { 0 < n }
    ensures { TogetherMeets i n result }
{
    let m = 253 - i % 253;
    if m < n { m } else { n }
}

// The bytes of m words from word i on that stand side by side.
pub fn bytes_of(image: &[u8], i: usize, m: usize) -> &[u8]
    requires { Within image.now i m × (0 < m) × (i % 253 + m ≤ 253) }
    ensures { BytesOfMeets image.now i m result.now }
{
    let a = offset_of(i);
    let e = a + 2 * m;
    &image[a..e]
}

pub(crate) fn low_high(low: u16, high: u16) -> u32
    ensures { result ≡ low + 65536 * high }
{
    u32::from(low) + 65536 * u32::from(high)
}

// The number of 32 bits whose low word stands at byte `at`.
pub fn long_at(s: &[u8], at: usize) -> u32
    requires { after at + 1 < length s.now }
    ensures { LongAtMeets s.now at result }
{
    low_high(word::word_at(s, at), word::word_at(s, next(at)))
}
