// What a legal history counts, without depths: from each gene node's place the climb goes up to its parent's place, step by step, by
// the parents alone. No table is kept.
#![tactic(auto)]

ghost use Rattle.std.specs.Prelude.{◌≡◌, ◌<◌, length};
ghost use Rattle.trees.specs.Tables.{pair_of};
ghost use Rattle.counts.specs.Tallies.{Story};
ghost use Rattle.climbs.specs.Climbing.{steps, steps_of, Climb, Climbable};
ghost use Rattle.climbs.specs.Promises.{CountClimbsMeets};

use counts::Tally;
use trees::{GeneNode, SpeciesNode, Trees};

// The steps from the species node `low` up to `high`, which it is at or below.
fn steps_up(species_parents: &[u16], low: SpeciesNode, high: SpeciesNode) -> u32
    requires { Climb species_parents.now low.0 high.0 }
    ensures { result ≡ steps species_parents.now low.0 high.0 }
{
    let top = high.0;
    let mut at = low.0;
    let mut passed: u32 = 0;
    while at != top {
        at = species_parents[at] as usize;
        passed += 1;
    }
    passed
}

// The steps from the place of a gene node up to its parent's place; none at the root.
fn steps_of(species_parents: &[u16], gene_parents: &[u16], places: &[u16], node: GeneNode) -> u32
    requires { (node.0 < length gene_parents.now) × Climbable species_parents.now gene_parents.now places.now }
    ensures { result ≡ steps_of species_parents.now gene_parents.now places.now node.0 }
{
    let c = node.0;
    let u = gene_parents[c] as usize;
    if gene_parents.len() <= u {
        return 0;
    }
    let low = SpeciesNode(places[c] as usize);
    let high = SpeciesNode(places[u] as usize);
    steps_up(species_parents, low, high)
}

// What a legal history of two sound trees counts.
pub fn count_climbs(trees: &Trees<'_>, places: &[u16], labels: &[u16]) -> Tally
    requires { Story (pair_of trees.now) places.now labels.now }
    ensures { CountClimbsMeets (pair_of trees.now) places.now labels.now result }
{
    let gene_parents = trees.genes.parents;
    // the answer has a name, so that edits which change it keep the names that the proof goes by
    let tally = counts::add_up(&labels[..gene_parents.len()], |node| {
        steps_of(trees.species.parents, gene_parents, places, node)
    });
    tally
}
