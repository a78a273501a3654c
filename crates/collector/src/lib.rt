// What a rack's C program asks: the refusal of an image against the rack's two species tables, and what its history counts; and the
// least history of a gene tree. Every slice is a pointer and a count of entries on the C side; include/panheron.h declares the calls.
#![tactic(auto)]

mod ask;
mod judge;

ghost use Rattle.std.specs.Prelude.{◌≡◌};
ghost use Rattle.trees.specs.Tables.{pair, pair_of};
ghost use Rattle.collector.specs.Promises.{PanheronRefusalMeets, PanheronTreeMeets, PanheronPlaceMeets, PanheronDuplicationsMeets, PanheronLossesMeets, PanheronHistoryMeets, PanheronHistoryTreeMeets, PanheronHistoryPlaceMeets};

use trees::{Tree, Trees};

// The tables of two trees, handed in one by one.
fn trees<'a>(
    species_parents: &'a [u16],
    species_taxa: &'a [u32],
    gene_parents: &'a [u16],
    gene_taxa: &'a [u32],
) -> Trees<'a>
    ensures { pair_of result ≡ pair species_parents.now species_taxa.now gene_parents.now gene_taxa.now }
{
    Trees {
        species: Tree {
            parents: species_parents,
            taxa: species_taxa,
        },
        genes: Tree {
            parents: gene_parents,
            taxa: gene_taxa,
        },
    }
}

// The number of the refusal, or 0.
#[unsafe(no_mangle)]
pub extern "C" fn panheron_refusal(image: &[u8], parents: &[u8], taxa: &[u8]) -> u32
    ensures { PanheronRefusalMeets image.now parents.now taxa.now result }
{
    match judge::refusal(image, parents, taxa) {
        Ok(()) => 0,
        Err(r) => u32::from(r.number),
    }
}

// The tree of the refusal (1 species, 2 gene), or 0.
#[unsafe(no_mangle)]
pub extern "C" fn panheron_tree(image: &[u8], parents: &[u8], taxa: &[u8]) -> u32
    ensures { PanheronTreeMeets image.now parents.now taxa.now result }
{
    match judge::refusal(image, parents, taxa) {
        Ok(()) => 0,
        Err(r) => u32::from(r.tree),
    }
}

// The place of the refusal: a node of that tree, a block of the image, or 0.
#[unsafe(no_mangle)]
pub extern "C" fn panheron_place(image: &[u8], parents: &[u8], taxa: &[u8]) -> u32
    ensures { PanheronPlaceMeets image.now parents.now taxa.now result }
{
    match judge::refusal(image, parents, taxa) {
        Ok(()) => 0,
        Err(r) => r.place as u32,
    }
}

// The duplications of the stored history, or 0.
#[unsafe(no_mangle)]
pub extern "C" fn panheron_duplications(image: &[u8], parents: &[u8], taxa: &[u8]) -> u32
    ensures { PanheronDuplicationsMeets image.now parents.now taxa.now result }
{
    ask::ask(image, parents, taxa).map_or(0, |c| c.duplications)
}

// The losses of the stored history, or 0.
#[unsafe(no_mangle)]
pub extern "C" fn panheron_losses(image: &[u8], parents: &[u8], taxa: &[u8]) -> u32
    ensures { PanheronLossesMeets image.now parents.now taxa.now result }
{
    ask::ask(image, parents, taxa).map_or(0, |c| c.losses)
}

// The least history: the number of the refusal, and then all three lent tables are as they were; or 0, with its places and labels and
// its four counts.
#[unsafe(no_mangle)]
pub extern "C" fn panheron_history(
    species_parents: &[u16],
    species_taxa: &[u32],
    gene_parents: &[u16],
    gene_taxa: &[u32],
    places: &mut [u16],
    labels: &mut [u16],
    counts: &mut [u64],
) -> u32
    ensures { PanheronHistoryMeets (pair species_parents.now species_taxa.now gene_parents.now gene_taxa.now) places.old labels.old counts.old result places.new labels.new counts.new }
{
    let tables = trees(species_parents, species_taxa, gene_parents, gene_taxa);
    rack::history(&tables, places, labels, counts)
}

// The tree of the refusal of these four tables (1 species, 2 gene), or 0.
#[unsafe(no_mangle)]
pub extern "C" fn panheron_history_tree(
    species_parents: &[u16],
    species_taxa: &[u32],
    gene_parents: &[u16],
    gene_taxa: &[u32],
) -> u32
    ensures { PanheronHistoryTreeMeets (pair species_parents.now species_taxa.now gene_parents.now gene_taxa.now) result }
{
    rack::history_tree(&trees(species_parents, species_taxa, gene_parents, gene_taxa))
}

// The place of the same refusal: a node of that tree, or 0.
#[unsafe(no_mangle)]
pub extern "C" fn panheron_history_place(
    species_parents: &[u16],
    species_taxa: &[u32],
    gene_parents: &[u16],
    gene_taxa: &[u32],
) -> u32
    ensures { PanheronHistoryPlaceMeets (pair species_parents.now species_taxa.now gene_parents.now gene_taxa.now) result }
{
    rack::history_place(&trees(species_parents, species_taxa, gene_parents, gene_taxa))
}
