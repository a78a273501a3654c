// What a rack's C program calls: include/panheron.h declares it. Each export calls the function of that name of the crate `collector`,
// and promises word for word what that one does. Every slice is a pointer and a count of entries on the C side.
#![tactic(auto)]

ghost use Rattle.trees.specs.Tables.{pair};
ghost use Rattle.collector.specs.Promises.{PanheronRefusalMeets, PanheronTreeMeets, PanheronPlaceMeets, PanheronDuplicationsMeets, PanheronLossesMeets, PanheronHistoryMeets, PanheronHistoryTreeMeets, PanheronHistoryPlaceMeets};

// The number of the refusal, or 0.
#[unsafe(no_mangle)]
pub extern "C" fn panheron_refusal(image: &[u8], parents: &[u8], taxa: &[u8]) -> u32
    ensures { PanheronRefusalMeets image.now parents.now taxa.now result }
{
    collector::panheron_refusal(image, parents, taxa)
}

// The tree of the refusal (1 species, 2 gene), or 0.
#[unsafe(no_mangle)]
pub extern "C" fn panheron_tree(image: &[u8], parents: &[u8], taxa: &[u8]) -> u32
    ensures { PanheronTreeMeets image.now parents.now taxa.now result }
{
    collector::panheron_tree(image, parents, taxa)
}

// The place of the refusal: a node of that tree, a block of the image, or 0.
#[unsafe(no_mangle)]
pub extern "C" fn panheron_place(image: &[u8], parents: &[u8], taxa: &[u8]) -> u32
    ensures { PanheronPlaceMeets image.now parents.now taxa.now result }
{
    collector::panheron_place(image, parents, taxa)
}

// The duplications of the stored history, or 0.
#[unsafe(no_mangle)]
pub extern "C" fn panheron_duplications(image: &[u8], parents: &[u8], taxa: &[u8]) -> u32
    ensures { PanheronDuplicationsMeets image.now parents.now taxa.now result }
{
    collector::panheron_duplications(image, parents, taxa)
}

// The losses of the stored history, or 0.
#[unsafe(no_mangle)]
pub extern "C" fn panheron_losses(image: &[u8], parents: &[u8], taxa: &[u8]) -> u32
    ensures { PanheronLossesMeets image.now parents.now taxa.now result }
{
    collector::panheron_losses(image, parents, taxa)
}

// The least history: the number of the refusal, and then all three lent tables are as they were; or 0, with its places and labels and
// its four counts.
#[unsafe(no_mangle)]
pub extern "C" fn panheron_history(
    species_parents: &[u16],
    species_taxa: &[u32],
    gene_parents: &[u16],
    gene_taxa: &[u32],
    places: &mut [u16],
    labels: &mut [u16],
    counts: &mut [u64],
) -> u32
    ensures { PanheronHistoryMeets (pair species_parents.now species_taxa.now gene_parents.now gene_taxa.now) places.old labels.old counts.old result places.new labels.new counts.new }
{
    collector::panheron_history(
        species_parents,
        species_taxa,
        gene_parents,
        gene_taxa,
        places,
        labels,
        counts,
    )
}

// The tree of the refusal of these four tables (1 species, 2 gene), or 0.
#[unsafe(no_mangle)]
pub extern "C" fn panheron_history_tree(
    species_parents: &[u16],
    species_taxa: &[u32],
    gene_parents: &[u16],
    gene_taxa: &[u32],
) -> u32
    ensures { PanheronHistoryTreeMeets (pair species_parents.now species_taxa.now gene_parents.now gene_taxa.now) result }
{
    collector::panheron_history_tree(species_parents, species_taxa, gene_parents, gene_taxa)
}

// The place of the same refusal: a node of that tree, or 0.
#[unsafe(no_mangle)]
pub extern "C" fn panheron_history_place(
    species_parents: &[u16],
    species_taxa: &[u32],
    gene_parents: &[u16],
    gene_taxa: &[u32],
) -> u32
    ensures { PanheronHistoryPlaceMeets (pair species_parents.now species_taxa.now gene_parents.now gene_taxa.now) result }
{
    collector::panheron_history_place(species_parents, species_taxa, gene_parents, gene_taxa)
}
