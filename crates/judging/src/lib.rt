// Judging an image on a rack: what `load` refuses it by, and nothing more. No table is lent and nothing is counted; the family is read
// into tables on the stack, short ones where they will do.
#![tactic(auto)]

ghost use Rattle.std.specs.Prelude.{◌≡◌, ◌≤◌};
ghost use Rattle.trees.specs.Rulings.{verdict};
ghost use Rattle.trees.specs.Answers.{judged_of};
ghost use Rattle.loading.specs.Conditions.{Tellable, Loadable};
ghost use Rattle.opening.specs.Conditions.{Opens};
ghost use Rattle.loading.specs.Outcomes.{lent};
ghost use Rattle.judging.specs.Judging.{table_rules, stored_rules};
ghost use Rattle.judging.specs.Promises.{JudgeImageMeets};

use loading::tables;
use trees::{Refusal, Tree, Trees};

// The gene rules 2, 38, 3, 4, 6 and the rules of descent 8 to 11, of tables of one right size on a sound rack. The places themselves tell
// where each leaf's taxon stands among the species; only where they do not, 6 and 9 are looked for.
fn judge_tables(trees: &Trees<'_>, places: &[u16], labels: &[u16]) -> Result<(), Refusal>
    requires { Tellable trees.now.species.parents.now trees.now.species.taxa.now (lent trees.now.genes.parents.now trees.now.genes.taxa.now places.now labels.now) }
    ensures { judged_of result ≡ verdict (table_rules trees.now.species.parents.now trees.now.species.taxa.now (lent trees.now.genes.parents.now trees.now.genes.taxa.now places.now labels.now)) }
{
    let homed = homes::all_homed(trees.species.taxa, trees.genes.taxa, places);
    judges::judge_family(trees, homed)?;
    offers::judge_rules(trees, places, labels, homed)
}

// The same of an image that opens on the rack, read into four tables of as many entries as it has gene nodes.
fn judge_stored(
    species: &Tree<'_>,
    image: &[u8],
    gene_parents: &mut [u16],
    gene_taxa: &mut [u32],
    places: &mut [u16],
    labels: &mut [u16],
) -> Result<(), Refusal>
    requires { Loadable species.now.parents.now species.now.taxa.now image.now (lent gene_parents.old gene_taxa.old places.old labels.old) }
    ensures { judged_of result ≡ verdict (stored_rules species.now.parents.now species.now.taxa.now image.now) }
{
    let p = species.parents.len();
    tables::read_genes(image, 3 + 3 * p, gene_parents, gene_taxa, places, labels);
    let trees = Trees {
        species: *species,
        genes: Tree {
            parents: gene_parents,
            taxa: gene_taxa,
        },
    };
    judge_tables(&trees, places, labels)
}

// An image that opens on the rack and has q gene nodes, at most N: 10 bytes of stack for each of the N.
fn judge_in<const N: usize>(species: &Tree<'_>, image: &[u8], q: usize) -> Result<(), Refusal>
    requires { Opens species.now.parents.now species.now.taxa.now image.now q × (q ≤ N) × (N ≤ 2047) }
    ensures { judged_of result ≡ verdict (stored_rules species.now.parents.now species.now.taxa.now image.now) }
{
    let mut gene_parents = [0u16; N];
    let mut gene_taxa = [0u32; N];
    let mut places = [0u16; N];
    let mut labels = [0u16; N];
    judge_stored(
        species,
        image,
        &mut gene_parents[..q],
        &mut gene_taxa[..q],
        &mut places[..q],
        &mut labels[..q],
    )
}

// The image of a family on a rack with these species tables: `Ok` where `load` accepts it, given tables that are long enough, or
// else the refusal of `load`.
#[tactic(auto, using(crate::proofs::Judging::opened_judged))]
pub fn judge_image(species: &Tree<'_>, image: &[u8]) -> Result<(), Refusal>
    ensures { JudgeImageMeets species.now.parents.now species.now.taxa.now image.now result }
{
    let q = opening::open_image(species, image)?;
    if q <= 255 {
        return judge_in::<255>(species, image, q);
    }
    judge_in::<2047>(species, image, q)
}
