// Loading an image on a rack: a family into four lent tables.
#![tactic(auto)]

pub mod tables;

ghost use Rattle.std.specs.Prelude.{◌≡◌, ◌&&◌, leb};
ghost use Rattle.trees.specs.Rulings.{ruling};
ghost use Rattle.trees.specs.Tables.{pair_of};
ghost use Rattle.histories.specs.Histories.{told};
ghost use Rattle.histories.specs.Rules.{offer_counts};
ghost use Rattle.offers.specs.Answers.{offered_of};
ghost use Rattle.blocks.specs.Blocks.{content};
ghost use Rattle.families.specs.Families.{family_of};
ghost use Rattle.families.specs.Loading.{story_rules, Loading};
ghost use Rattle.loading.specs.Answers.{loaded_of};
ghost use Rattle.loading.specs.Conditions.{Tellable, Loadable};
ghost use Rattle.opening.specs.Conditions.{Opens};
ghost use Rattle.loading.specs.Outcomes.{lent, story_outcome};
ghost use Rattle.loading.specs.Promises.{LoadImageMeets};

use offers::HistoryCounts;
use trees::{Refusal, Tree, Trees, refuse};

// What an image holds: how many species nodes and gene nodes, and what its history counts.
#[derive(Clone, Copy)]
pub struct Stored {
    pub species: usize,
    pub genes: usize,
    pub duplications: u32,
    pub losses: u32,
}

// The gene rules 2, 38, 3, 4, 6 and the rules of descent 8 to 11, on a sound rack and tables of one right size.
fn judge_story(trees: &Trees<'_>, places: &[u16], labels: &[u16]) -> Result<HistoryCounts, Refusal>
    requires { Tellable trees.now.species.parents.now trees.now.species.taxa.now (lent trees.now.genes.parents.now trees.now.genes.taxa.now places.now labels.now) }
    ensures { offered_of result ≡ ruling (story_rules (pair_of trees.now) (told places.now labels.now)) (offer_counts (pair_of trees.now) (told places.now labels.now)) }
{
    let homed = homes::all_homed(trees.species.taxa, trees.genes.taxa, places);
    judges::judge_family(trees, homed)?;
    offers::judge_descent(trees, places, labels)
}

// An image that opens on the rack, into four tables of as many entries as it has gene nodes. A refusal leaves them all zero.
fn load_genes(
    species: &Tree<'_>,
    image: &[u8],
    gene_parents: &mut [u16],
    gene_taxa: &mut [u32],
    places: &mut [u16],
    labels: &mut [u16],
) -> Result<Stored, Refusal>
    requires { Loadable species.now.parents.now species.now.taxa.now image.now (lent gene_parents.old gene_taxa.old places.old labels.old) }
    ensures { ◌≡◌ {A = Loading} (record { answer = loaded_of result; tables = lent gene_parents.new gene_taxa.new places.new labels.new }) (story_outcome species.now.parents.now species.now.taxa.now (family_of (content image.now))) }
{
    let p = species.parents.len();
    let q = gene_parents.len();
    tables::read_genes(image, 3 + 3 * p, gene_parents, gene_taxa, places, labels);
    let trees = Trees {
        species: *species,
        genes: Tree {
            parents: gene_parents,
            taxa: gene_taxa,
        },
    };
    match judge_story(&trees, places, labels) {
        Ok(t) => Ok(Stored {
            species: p,
            genes: q,
            duplications: t.duplications,
            losses: t.losses,
        }),
        Err(r) => {
            tables::clear_genes(gene_parents, gene_taxa, places, labels);
            Err(r)
        }
    }
}

// Is q at most each of four lengths?
fn lends_all(q: usize, a: usize, b: usize, c: usize, d: usize) -> bool
    ensures { result ≡ (leb q a && leb q b) && (leb q c && leb q d) }
{
    (q <= a && q <= b) && (q <= c && q <= d)
}

// An image that opens on the rack and has q gene nodes, into the first q entries of four lent tables: 7, then the gene rules.
fn load_opened(
    species: &Tree<'_>,
    image: &[u8],
    q: usize,
    gene_parents: &mut [u16],
    gene_taxa: &mut [u32],
    places: &mut [u16],
    labels: &mut [u16],
) -> Result<Stored, Refusal>
    requires { Opens species.now.parents.now species.now.taxa.now image.now q }
    ensures { LoadImageMeets species.now.parents.now species.now.taxa.now image.now gene_parents.old gene_taxa.old places.old labels.old result gene_parents.new gene_taxa.new places.new labels.new }
{
    if !lends_all(
        q,
        gene_parents.len(),
        gene_taxa.len(),
        places.len(),
        labels.len(),
    ) {
        return Err(refuse(7, 0, 0));
    }
    load_genes(
        species,
        image,
        &mut gene_parents[..q],
        &mut gene_taxa[..q],
        &mut places[..q],
        &mut labels[..q],
    )
}

// The image of a family, on a rack with these species tables, into the first entries of the four lent tables. Refusals: the rack's
// species 1 to 5, then 13 to 18, then 7 for the lent tables; these leave the tables as they were. Then gene 2, 38, 3, 4, 6 and 8 to 11;
// these leave the first q entries of the four tables zero, q the image's count of gene nodes, and the rest as it was.
pub fn load_image(
    species: &Tree<'_>,
    image: &[u8],
    gene_parents: &mut [u16],
    gene_taxa: &mut [u32],
    places: &mut [u16],
    labels: &mut [u16],
) -> Result<Stored, Refusal>
    ensures { LoadImageMeets species.now.parents.now species.now.taxa.now image.now gene_parents.old gene_taxa.old places.old labels.old result gene_parents.new gene_taxa.new places.new labels.new }
{
    let q = opening::open_image(species, image)?;
    load_opened(species, image, q, gene_parents, gene_taxa, places, labels)
}
