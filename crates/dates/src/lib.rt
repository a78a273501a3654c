// The dating of a gene node: when it was duplicated, in the least history.
#![tactic(auto)]

ghost use Rattle.std.specs.Prelude.{◌≡◌};
ghost use Rattle.trees.specs.Tables.{Pair, pair_of};
ghost use Rattle.histories.specs.Dating.{dated};
ghost use Rattle.dates.specs.Answers.{Datable, Told, dated_of};
ghost use Rattle.dates.specs.Promises.{DateMeets};

use trees::{GeneNode, Refusal, SpeciesNode, Trees, refuse};

// When a gene node was duplicated. Each kind of answer carries only its own numbers.
#[derive(Clone, Copy)]
pub enum Dating {
    NotDuplication,
    From(SpeciesNode),
    Between(SpeciesNode, SpeciesNode),
}

// When the gene node was duplicated, by the places and labels of the least history.
#[tactic(auto, using(crate::proofs::Dates::dated_here))]
fn date_by(gene_parents: &[u16], places: &[u16], labels: &[u16], node: GeneNode) -> Dating
    requires { Datable gene_parents.now places.now labels.now node.0 }
    ensures { (w : Pair) → Told w gene_parents.now places.now labels.now → dated_of result ≡ dated w node.0 }
{
    let v = node.0;
    let lower = SpeciesNode(places[v] as usize);
    if labels[v] != 2 {
        return Dating::NotDuplication;
    }
    let q = gene_parents.len();
    let mut u = gene_parents[v] as usize;
    while u < q {
        if labels[u] == 1 {
            return Dating::Between(lower, SpeciesNode(places[u] as usize));
        }
        u = gene_parents[u] as usize;
    }
    Dating::From(lower)
}

// When the gene node was duplicated. Refusals: the trees' own, then 19. The least history is worked out in two tables on the
// stack, 8,188 bytes.
pub fn date(trees: &Trees<'_>, node: GeneNode) -> Result<Dating, Refusal>
    ensures { DateMeets (pair_of trees.now) node.0 result }
{
    judges::judge_pair(trees)?;
    let q = trees.genes.parents.len();
    if q <= node.0 {
        return Err(refuse(19, 2, 0));
    }
    let mut places = [0u16; 2047];
    let mut labels = [0u16; 2047];
    fills::fill(trees, &mut places, &mut labels);
    Ok(date_by(trees.genes.parents, &places, &labels, node))
}
