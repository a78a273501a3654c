// The fill of the least history: up from each gene leaf in turn, in the two lent tables alone. A node is finished when its second child
// arrives; until then its label says how many have (3: none, 4: one). The leaves' places come first. `ordered`: the species table has
// parents first, which is found out once.
#![tactic(auto)]

mod settling;

ghost use Rattle.std.specs.Prelude.{◌≡◌, ◌≤◌, length, T};
ghost use Rattle.trees.specs.First.{ParentsFirst};
ghost use Rattle.trees.specs.Tables.{pair_of};
ghost use Rattle.fills.specs.Filling.{kind_of, Ready, Finished, Rising, Risen, Marked, Taking};
ghost use Rattle.fills.specs.Promises.{Fillable, FillMeets};

use trees::{GeneNode, SpeciesNode, Trees};

// The label of an inner node at m whose children sit at a and b.
#[tactic(auto, unfolding(crate::specs::Filling::kind_of, trees::specs::Lists::pick))]
fn kind_of(m: SpeciesNode, a: SpeciesNode, b: SpeciesNode) -> u16
    ensures { result ≡ kind_of m.0 a.0 b.0 }
{
    if a == m || b == m { 2 } else { 1 }
}

// The places of the two children meet at the gene node `above`, whose second child arrives now: it gets its place and its label.
fn finish(
    species_parents: &[u16],
    places: &mut [u16],
    labels: &mut [u16],
    above: GeneNode,
    child: GeneNode,
    ordered: bool,
)
    requires { Ready species_parents.now places.old labels.old above.0 child.0 × (T ordered → ParentsFirst species_parents.now) }
    ensures { Finished species_parents.now above.0 child.0 places.old places.new labels.old labels.new }
{
    let u = above.0;
    let v = child.0;
    let a = SpeciesNode(places[u] as usize);
    let b = SpeciesNode(places[v] as usize);
    let m = meets::join(species_parents, a, b, ordered);
    places[u] = m.0 as u16;
    labels[u] = kind_of(m, a, b);
}

// Up from a finished gene leaf: each node whose second child arrives is finished, until one is reached whose other child has
// not arrived yet, or the root is done.
fn go_up(trees: &Trees<'_>, places: &mut [u16], labels: &mut [u16], leaf: GeneNode, ordered: bool)
    requires { Rising (pair_of trees.now) leaf.0 places.old labels.old × (T ordered → ParentsFirst trees.now.species.parents.now) }
    ensures { Risen (pair_of trees.now) leaf.0 places.old places.new labels.old labels.new }
{
    let gene_parents = trees.genes.parents;
    let q = gene_parents.len();
    let mut v = leaf.0;
    loop {
        let u = gene_parents[v] as usize;
        if q <= u {
            return;
        }
        if labels[u] == 3 {
            places[u] = places[v];
            labels[u] = 4;
            return;
        }
        finish(
            trees.species.parents,
            places,
            labels,
            GeneNode(u),
            GeneNode(v),
            ordered,
        );
        v = u;
    }
}

// Labels of 3 for the first q gene nodes: nothing has arrived anywhere.
fn mark(labels: &mut [u16], q: usize)
    requires { q ≤ length labels.old }
    ensures { Marked q labels.old labels.new }
{
    labels[..q].fill(3);
}

// A gene node in turn: a leaf, which has its place, gets its label and goes up; an inner node waits for its children.
fn take(trees: &Trees<'_>, places: &mut [u16], labels: &mut [u16], node: GeneNode, ordered: bool)
    requires { Taking (pair_of trees.now) node.0 places.old labels.old × (T ordered → ParentsFirst trees.now.species.parents.now) }
    ensures { Risen (pair_of trees.now) node.0 places.old places.new labels.old labels.new }
{
    let k = node.0;
    if trees.genes.taxa[k] == 0 {
        return;
    }
    labels[k] = 0;
    go_up(trees, places, labels, node, ordered);
}

// The least history of two sound trees, into two tables that are long enough.
pub fn fill(trees: &Trees<'_>, places: &mut [u16], labels: &mut [u16])
    requires { Fillable (pair_of trees.now) places.old labels.old }
    ensures { FillMeets (pair_of trees.now) places.old labels.old places.new labels.new }
{
    let ordered = roots::in_order(trees.species.parents);
    let q = trees.genes.parents.len();
    settling::settle(trees.species.taxa, trees.genes.taxa, places);
    mark(labels, q);
    for k in 0..q {
        take(trees, places, labels, GeneNode(k), ordered);
    }
}
