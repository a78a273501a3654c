// The species tables that stand in an image, compared with a rack's: a release swap shows here. A table is passed with no branch in the
// loop, so that several entries go at a time: what is found wrong is noted, and asked for at the end. Such a no is not relied on:
// whoever is told no looks for the place.
#![tactic(auto)]

ghost use Rattle.std.specs.Prelude.{◌≡◌, ◌+◌, ◌*◌, ◌<◌, ◌≤◌, true, false, ◌&&◌, [], ◌∷◌, length, eqb, IfSome};
ghost use Rattle.blocks.specs.Halves.{words_of};
ghost use Rattle.blocks.specs.Blocks.{run, word, content};
ghost use Rattle.words.specs.Words.{after, Within, Comparable};
ghost use Rattle.release.specs.Passing.{Starts};
ghost use Rattle.release.specs.Promises.{FirstDifferenceMeets};

use blocks::word;
use trees::{SpeciesNode, Tree};
use words::at;
use words::entry::Entry;

// Do two entries differ? If not, they are the same.
fn differ<T: Entry>(a: T, b: T) -> bool
    ensures { result ≡ false → a ≡ b }
{
    a != b
}

// Is entry k of a table whose bytes stand side by side another one? If not, it is this one.
fn differ_at<T: Entry>(bytes: &[u8], k: usize, entry: T) -> bool
    requires { 2 * (T.WORDS * k) + 2 * T.WORDS ≤ length bytes.now }
    ensures { result ≡ false → T.entries (words_of (run (2 * (T.WORDS * k)) (2 * T.WORDS) bytes.now)) ≡ entry ∷ [] }
{
    differ(T::nth(bytes, k), entry)
}

// Is the table whose bytes stand side by side this one?
fn equal<T: Entry>(bytes: &[u8], table: &[T]) -> bool
    requires { length bytes.now ≡ 2 * (T.WORDS * length table.now) }
    ensures { result ≡ true → table.now ≡ T.entries (words_of bytes.now) }
{
    let mut wrong = false;
    for (k, x) in table.iter().enumerate() {
        wrong |= differ_at(bytes, k, *x);
    }
    !wrong
}

// How many entries from the front on stand from word i on, as far as the block of word i goes, if they do. An entry that begins in one
// block and ends in the next is compared by itself.
fn matching<T: Entry>(image: &[u8], i: usize, table: &[T]) -> Option<usize>
    requires { Within image.now i (T.WORDS * length table.now) × (0 < length table.now) }
    ensures { IfSome result (λ m. (0 < m) × Starts (T.entries (run i (T.WORDS * length table.now) (content image.now))) table.now m) }
{
    let m = at::together(i, T::WORDS * table.len()) / T::WORDS;
    if m == 0 {
        return if differ(T::from_word(image, i), table[0]) {
            None
        } else {
            Some(1)
        };
    }
    if equal(at::bytes_of(image, i, T::WORDS * m), &table[..m]) {
        Some(m)
    } else {
        None
    }
}

// Are the entries from word i on these?
fn same<T: Entry>(image: &[u8], i: usize, table: &[T]) -> bool
    requires { Within image.now i (T.WORDS * length table.now) }
    ensures { result ≡ true → table.now ≡ T.entries (run i (T.WORDS * length table.now) (content image.now)) }
{
    let mut k: usize = 0;
    while k < table.len() {
        let Some(m) = matching(image, i + T::WORDS * k, &table[k..]) else {
            return false;
        };
        k += m;
    }
    true
}

// Are the word at byte a and the number of 32 bits at byte b these?
fn same_at(image: &[u8], a: usize, b: usize, parent: u16, taxon: u32) -> bool
    requires { (a + 1 < length image.now) × (after b + 1 < length image.now) }
    ensures { result ≡ eqb (word image.now a) parent && eqb (word image.now b + 65536 * word image.now (after b)) taxon }
{
    word::word_at(image, a) == parent && at::long_at(image, b) == taxon
}

// The lowest species node at which the two tables that stand from word i on, parents and then taxa, are not these.
fn lowest_difference(image: &[u8], i: usize, species: &Tree<'_>) -> Option<SpeciesNode>
    requires { Comparable image.now i species.now.parents.now species.now.taxa.now }
    ensures { FirstDifferenceMeets image.now i species.now.parents.now species.now.taxa.now result }
{
    let n = species.parents.len();
    let mut a = at::offset_of(i);
    let mut b = at::offset_of(i + n);
    for v in 0..n {
        if !same_at(image, a, b, species.parents[v], species.taxa[v]) {
            return Some(SpeciesNode(v));
        }
        a = at::next(a);
        b = at::next(at::next(b));
    }
    None
}

// The same, asked first whether there is any.
pub fn first_difference(image: &[u8], i: usize, species: &Tree<'_>) -> Option<SpeciesNode>
    requires { Comparable image.now i species.now.parents.now species.now.taxa.now }
    ensures { FirstDifferenceMeets image.now i species.now.parents.now species.now.taxa.now result }
{
    let parents = species.parents;
    if same(image, i, parents) && same(image, i + parents.len(), species.taxa) {
        return None;
    }
    lowest_difference(image, i, species)
}
