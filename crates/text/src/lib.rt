// The text of the program `history`: the bytes that it reads, and the bytes that it prints.
//
// `history_text` is the whole program on slices. Nothing is asked of its caller, and its contract fixes its answer and the lent
// buffer for every text and every buffer. The crate `reading` has what it reads with, `printing` what it prints with.
#![tactic(auto)]

ghost use Rattle.std.specs.Prelude.{◌≡◌, ◌≤◌, length};
ghost use Rattle.io.specs.Counts.{IsPrefixLen};
ghost use Rattle.trees.specs.Tables.{pair, pair_of};
ghost use Rattle.reading.specs.Readers.{SizesRead, Ready};
ghost use Rattle.printing.specs.Printing.{answered};
ghost use Rattle.printing.specs.Putting.{Outcome, outcome};
ghost use Rattle.text.specs.Promises.{HistoryTextMeets};

use printing::{write_history, write_refusal};
use reading::{Sizes, read_counts, read_tables};
use trees::{Tree, Trees, refuse};

// The least history of four tables, printed. Its places and labels stand on the stack, 8,188 bytes, since a program has no
// other memory.
fn answer_tables(trees: &Trees<'_>, out: &mut [u8]) -> usize
    requires { length trees.now.genes.parents.now ≤ 2047 }
    ensures { ◌≡◌ {A = Outcome} (record { written = result; out = out.new }) (outcome (answered (pair_of trees.now)) out.old) }
{
    let q = trees.genes.parents.len();
    let mut places = [0u16; 2047];
    let mut labels = [0u16; 2047];
    match least::least_history(trees, &mut places, &mut labels, 1, 1) {
        Ok(counts) => write_history(&places[..q], &labels[..q], counts, out),
        Err(refusal) => write_refusal(refusal, out),
    }
}

// The rest of a text, behind its counts, printed. It is read into four tables of the right sizes, which are left with any
// entries.
fn answer_rest<'a>(
    text: &[u8],
    next: usize,
    species_parents: &'a mut [u16],
    species_taxa: &'a mut [u32],
    gene_parents: &'a mut [u16],
    gene_taxa: &'a mut [u32],
    out: &mut [u8],
) -> usize
    requires { Ready text.now next (pair species_parents.old species_taxa.old gene_parents.old gene_taxa.old) }
    ensures { HistoryTextMeets text.now out.old result out.new }
{
    if !read_tables(
        text,
        next,
        species_parents,
        species_taxa,
        gene_parents,
        gene_taxa,
    ) {
        return write_refusal(refuse(20, 0, 0), out);
    }
    answer_tables(
        &Trees {
            species: Tree {
                parents: species_parents,
                taxa: species_taxa,
            },
            genes: Tree {
                parents: gene_parents,
                taxa: gene_taxa,
            },
        },
        out,
    )
}

// A text with its counts read, printed. The four tables stand on the stack, 24,564 bytes, for the same reason.
#[tactic(auto, using(crate::proofs::Answered::zeros_length))]
fn answer_sized(text: &[u8], sizes: Sizes, out: &mut [u8]) -> usize
    requires { SizesRead text.now sizes.species sizes.genes sizes.next }
    ensures { HistoryTextMeets text.now out.old result out.new }
{
    let p = sizes.species;
    let q = sizes.genes;
    let mut species_parents = [0u16; 2047];
    let mut species_taxa = [0u32; 2047];
    let mut gene_parents = [0u16; 2047];
    let mut gene_taxa = [0u32; 2047];
    answer_rest(
        text,
        sizes.next,
        &mut species_parents[..p],
        &mut species_taxa[..p],
        &mut gene_parents[..q],
        &mut gene_taxa[..q],
        out,
    )
}

// Reads the text, works out the least history at weights 1 and 1, and writes what the program prints to the start of `out`.
// Answers how many bytes these are; the bytes behind them are as they were. If `out` is shorter than that, nothing is written
// and the answer is 0, which it never is otherwise. 24,598 bytes are always enough.
pub fn history_text(text: &[u8], out: &mut [u8]) -> usize
    ensures history_text_meets { HistoryTextMeets text.now out.old result out.new }
    ensures prefix_len { IsPrefixLen result out.new }
{
    match read_counts(text) {
        Ok(sizes) => answer_sized(text, sizes, out),
        Err(refusal) => write_refusal(refusal, out),
    }
}
