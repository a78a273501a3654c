// What the program `history` reads out of its text: the two counts, then the four tables.
#![tactic(auto)]

ghost use Rattle.std.specs.Prelude.{◌≡◌, ℕ, ◌<◌, ◌≤◌, ◌^◌, ◌++◌, MatchOption, map, length, replicate};
ghost use Rattle.std.proofs.Common.{rules};
ghost use Rattle.trees.specs.Tables.{pair};
ghost use Rattle.reading.specs.Reading.{counted, tree_widths};
ghost use Rattle.reading.specs.Readers.{TreeRoom, TablesRoom, FilledBy, TablesRead, SizesBy};

use numbers::{read_number, skip_blanks};
use trees::{Refusal, refuse};

// The counts p and q, and the place behind them.
#[derive(Clone, Copy)]
pub struct Sizes {
    pub species: usize,
    pub genes: usize,
    pub next: usize,
}

// Neither 0 nor over 2,047.
#[tactic(auto, unfolding(crate::specs::Reading::counted))]
fn is_count(n: u32) -> bool
    ensures { result ≡ counted n }
{
    (1..=2047).contains(&n)
}

// The two counts: 20 for a text that is too long and for a count that is missing or malformed, then 1 for p, then 1 for q.
pub fn read_counts(text: &[u8]) -> Result<Sizes, Refusal>
    ensures { SizesBy result text.now }
{
    let malformed = refuse(20, 0, 0);
    if 49152 < text.len() {
        return Err(malformed);
    }
    let first = read_number(text, 0).ok_or(malformed)?;
    let second = read_number(text, first.next).ok_or(malformed)?;
    if !is_count(first.value) {
        return Err(refuse(1, 1, 0));
    }
    if !is_count(second.value) {
        return Err(refuse(1, 2, 0));
    }
    Ok(Sizes {
        species: first.value as usize,
        genes: second.value as usize,
        next: second.next,
    })
}

// An entry of a table: a number of at most `width` bits.
trait Entry: Copy {
    ghost width: { ℕ };

    ghost number: { Self → ℕ };

    // The entry that is this number, or none if it is too wide.
    fn entry(n: u32) -> Option<Self>
        ensures { MatchOption result (2 ^ width ≤ n) (λ e. (number e ≡ n) × (n < 2 ^ width)) };

    ghost narrow: { width ≤ 32 };
}

// A parent.
impl Entry for u16 {
    ghost width = { 16 };

    ghost number = { λ x. x };

    ghost narrow = { Prim.search rules };

    fn entry(n: u32) -> Option<u16> {
        u16::try_from(n).ok()
    }
}

// A taxon.
impl Entry for u32 {
    ghost width = { 32 };

    ghost number = { λ x. x };

    ghost narrow = { Prim.search rules };

    fn entry(n: u32) -> Option<u32> {
        Some(n)
    }
}

// Fills a whole lent table from the words from `at` on, and answers the place behind them. `None` leaves any entries.
fn read_table<T: Entry>(text: &[u8], at: usize, table: &mut [T]) -> Option<usize>
    requires { at ≤ length text.now }
    ensures { FilledBy result text.now at (replicate (length table.new) T.width) (map T.number table.new) }
{
    let mut next = at;
    for entry in table.iter_mut() {
        let number = read_number(text, next)?;
        *entry = T::entry(number.value)?;
        next = number.next;
    }
    Some(next)
}

// Fills two whole lent tables of one tree, parents before taxa, from the words from `at` on. `None` leaves any entries.
fn read_tree(text: &[u8], at: usize, parents: &mut [u16], taxa: &mut [u32]) -> Option<usize>
    requires { TreeRoom text.now at parents.old taxa.old }
    ensures { FilledBy result text.now at (tree_widths (length parents.new)) (parents.new ++ taxa.new) }
{
    let next = read_table(text, at, parents)?;
    read_table(text, next, taxa)
}

// Fills the four lent tables, whole, from the words from `at` on; false if the words are too few or too many, or one is no
// number of its table's width, and then any entries are left.
pub fn read_tables(
    text: &[u8],
    at: usize,
    species_parents: &mut [u16],
    species_taxa: &mut [u32],
    gene_parents: &mut [u16],
    gene_taxa: &mut [u32],
) -> bool
    requires { TablesRoom text.now at (pair species_parents.old species_taxa.old gene_parents.old gene_taxa.old) }
    ensures { TablesRead text.now at (pair species_parents.new species_taxa.new gene_parents.new gene_taxa.new) result }
{
    let Some(a) = read_tree(text, at, species_parents, species_taxa) else {
        return false;
    };
    let Some(b) = read_tree(text, a, gene_parents, gene_taxa) else {
        return false;
    };
    skip_blanks(text, b) == text.len()
}
