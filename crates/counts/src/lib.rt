// What a history counts: duplications, losses, speciations and climbs, by the depths of the species nodes.
#![tactic(auto)]

mod depths;

ghost use Rattle.std.specs.Prelude.{◌≡◌, ℕ, ◌<◌, length, get_or};
ghost use Rattle.trees.specs.Tables.{pair_of};
ghost use Rattle.counts.specs.Tallies.{Story};
ghost use Rattle.counts.specs.Sums.{steps_of, Step};
ghost use Rattle.counts.specs.Adding.{Addable};
ghost use Rattle.counts.specs.Promises.{AddUpMeets, CountHistoryMeets};

use trees::{GeneNode, SpeciesNode, Trees};

#[derive(Clone, Copy)]
pub struct Tally {
    pub duplications: u32,
    pub losses: u32,
    pub speciations: u32,
    pub climbs: u32,
}

// The place of a gene node.
fn place_of(places: &[u16], node: GeneNode) -> SpeciesNode
    requires { node.0 < length places.now }
    ensures { result.0 ≡ get_or places.now node.0 0 }
{
    let g = node.0;
    SpeciesNode(places[g] as usize)
}

// The depth of a species node, by the table of depths.
fn depth_of(depths: &[u16], place: SpeciesNode) -> u16
    requires { place.0 < length depths.now }
    ensures { result ≡ get_or depths.now place.0 0 }
{
    let s = place.0;
    depths[s]
}

// The steps from the place of a gene node up to its parent's place; none at the root.
#[tactic(auto, using(crate::proofs::Tallying::step_up, crate::proofs::Tallying::step_root))]
fn steps_of(depths: &[u16], gene_parents: &[u16], places: &[u16], node: GeneNode) -> u32
    requires { Step depths.now gene_parents.now places.now node.0 }
    ensures { result ≡ steps_of depths.now gene_parents.now places.now node.0 }
{
    let c = node.0;
    let u = gene_parents[c] as usize;
    if gene_parents.len() <= u {
        return 0;
    }
    let low = depth_of(depths, place_of(places, node));
    let high = depth_of(depths, place_of(places, GeneNode(u)));
    (low - high) as u32
}

// What the gene nodes with these labels count, if `steps` tells how many steps it is from a node's place up to its parent's place, none
// at the root. The losses: each of the two edges down from a speciation counts one less than its steps.
pub fn add_up<F: Fn(GeneNode) -> u32>(labels: &[u16], steps: F) -> Tally
    requires { (s : ℕ → ℕ) × Addable (F.pre steps) (F.post steps) labels.now s }
    ensures { AddUpMeets (F.pre steps) (F.post steps) labels.now result }
{
    let mut duplications: u32 = 0;
    let mut speciations: u32 = 0;
    let mut climbs: u32 = 0;
    for (c, &kind) in labels.iter().enumerate() {
        duplications += u32::from(kind == 2);
        speciations += u32::from(kind == 1);
        climbs += steps(GeneNode(c));
    }
    Tally {
        duplications,
        losses: climbs - 2 * speciations,
        speciations,
        climbs,
    }
}

// What a legal history of two sound trees counts. The one table on the stack is that of the depths, 4,094 bytes.
pub fn count_history(trees: &Trees<'_>, places: &[u16], labels: &[u16]) -> Tally
    requires { Story (pair_of trees.now) places.now labels.now }
    ensures { CountHistoryMeets (pair_of trees.now) places.now labels.now result }
{
    let mut depths = [65535u16; 2047];
    depths::fill_depths(trees.species.parents, &mut depths);
    let gene_parents = trees.genes.parents;
    add_up(&labels[..gene_parents.len()], |node| {
        steps_of(&depths, gene_parents, places, node)
    })
}
