// Rules 5 and 6 on a small stack: one table of hints, a kilobyte that the caller lends and that may hold anything before and after. It
// is filled anew for each round of 256 species leaves. A first pass by rounds finds out whether anything is wrong, and not where. Only
// where it cannot say yes a scan looks for the lowest node.
#![tactic(auto)]

ghost use Rattle.std.specs.Prelude.{◌≡◌, not, ℕ, ◌+◌, ◌≤◌, ◌<◌, length, T, eqb};
ghost use Rattle.trees.specs.Lists.{one};
ghost use Rattle.taxa.specs.Searches.{fresh_taxon, known_taxon};
ghost use Rattle.taxa.specs.Chains.{Alone, AllKnown};
ghost use Rattle.taxa.specs.Promises.{JudgeRepeatsMeets, JudgeKnownMeets};
ghost use Rattle.rounds.specs.Rounds.{Apart, AllFresh, held, held_to, leaves_to};

use trees::{GeneNode, Refusal, SpeciesNode, judge_each};

// ---- rule 5

// Does the table of a round that ends at `to` tell this node from the round's leaves? It does if it finds the node itself, or finds
// nothing for a node behind the round.
fn apart_at(species_taxa: &[u32], hints: &[u16; 512], to: usize, node: SpeciesNode) -> bool
    requires { node.0 < length species_taxa.now }
    ensures { T result → Apart species_taxa.now hints.now to node.0 }
{
    let taxon = species_taxa[node.0];
    if taxon == 0 {
        return true;
    }
    match hints::ask(species_taxa, hints, taxon) {
        Some(found) => found == node,
        None => to <= node.0,
    }
}

// Does it tell every node from `from` on?
fn round_apart(species_taxa: &[u32], hints: &[u16; 512], from: usize, to: usize) -> bool
    ensures { T result → (j : ℕ) → from ≤ j → j < length species_taxa.now → Apart species_taxa.now hints.now to j }
{
    for j in from..species_taxa.len() {
        if !apart_at(species_taxa, hints, to, SpeciesNode(j)) {
            return false;
        }
    }
    true
}

// Is it certain that no taxon stands twice? The table is filled anew for each round.
fn all_apart(species_taxa: &[u32], hints: &mut [u16; 512]) -> bool
    requires { length species_taxa.now ≤ 2047 }
    ensures { T result → AllFresh species_taxa.now }
{
    let n = species_taxa.len();
    let mut from: usize = 0;
    while from < n {
        let to = hints::enter(species_taxa, hints, from);
        if !round_apart(species_taxa, hints, from, to) {
            return false;
        }
        from = to;
    }
    true
}

// Rule 5 at one node, by a scan of the nodes below it.
fn fresh_at(species_taxa: &[u32], node: SpeciesNode) -> bool
    requires { node.0 < length species_taxa.now }
    ensures { result ≡ fresh_taxon species_taxa.now node.0 }
{
    let taxon = species_taxa[node.0];
    taxon == 0 || taxa::species_of(&species_taxa[..node.0], taxon).is_none()
}

// Rule 5, of species tables of which rule 4 holds: refused at the lowest leaf whose taxon stands at a lower leaf too.
pub fn judge_repeats(species_taxa: &[u32], hints: &mut [u16; 512]) -> Result<(), Refusal>
    requires { length species_taxa.now ≤ 2047 }
    ensures { JudgeRepeatsMeets species_taxa.now result }
{
    if all_apart(species_taxa, hints) {
        return Ok(());
    }
    judge_each(
        5,
        1,
        species_taxa.len(),
        |i| fresh_at(species_taxa, SpeciesNode(i)),
    )
}

// ---- rule 6

// How many gene nodes are leaves.
fn count_leaves(gene_taxa: &[u32]) -> usize
    ensures { result ≡ leaves_to gene_taxa.now (length gene_taxa.now) }
{
    let mut count: usize = 0;
    for &taxon in gene_taxa {
        count += usize::from(taxon != 0);
    }
    count
}

// Is this gene node a leaf whose species the hints find in the round?
#[tactic(auto, using(crate::proofs::Held::counts_none))]
fn held_at(
    species_taxa: &[u32],
    hints: &[u16; 512],
    from: usize,
    to: usize,
    gene_taxa: &[u32],
    node: GeneNode,
) -> bool
    requires { (from ≤ to) × (node.0 < length gene_taxa.now) × Alone species_taxa.now }
    ensures { one result + one (held species_taxa.now gene_taxa.now from node.0) ≤ one (held species_taxa.now gene_taxa.now to node.0) }
{
    let x = node.0;
    let sought = gene_taxa[x];
    if sought == 0 {
        return false;
    }
    let found = hints::ask(species_taxa, hints, sought);
    let Some(home) = found else {
        return false;
    };
    let s = home.0;
    if s < from {
        return false;
    }
    s < to
}

// How many gene leaves have a species that the hints find in the round.
fn count_held(
    species_taxa: &[u32],
    hints: &[u16; 512],
    from: usize,
    to: usize,
    gene_taxa: &[u32],
) -> usize
    requires { (from ≤ to) × Alone species_taxa.now }
    ensures { result + held_to species_taxa.now gene_taxa.now from (length gene_taxa.now) ≤ held_to species_taxa.now gene_taxa.now to (length gene_taxa.now) }
{
    let mut count: usize = 0;
    for i in 0..gene_taxa.len() {
        if held_at(species_taxa, hints, from, to, gene_taxa, GeneNode(i)) {
            count += 1;
        }
    }
    count
}

// Is it certain that each gene taxon is a species taxon? The table is filled anew for each round. No leaf is counted in two rounds,
// since no species taxon stands twice.
fn all_held(species_taxa: &[u32], hints: &mut [u16; 512], gene_taxa: &[u32]) -> bool
    requires { Alone species_taxa.now }
    ensures { T result → AllKnown species_taxa.now gene_taxa.now }
{
    let leaves = count_leaves(gene_taxa);
    let n = species_taxa.len();
    let mut count: usize = 0;
    let mut from: usize = 0;
    while from < n {
        let to = hints::enter(species_taxa, hints, from);
        count += count_held(species_taxa, hints, from, to, gene_taxa);
        from = to;
    }
    count == leaves
}

// Rule 6 at one gene node, by a scan of the species nodes.
fn known_at(species_taxa: &[u32], gene_taxa: &[u32], node: GeneNode) -> bool
    requires { node.0 < length gene_taxa.now }
    ensures { result ≡ known_taxon species_taxa.now gene_taxa.now node.0 }
{
    let sought = gene_taxa[node.0];
    sought == 0 || taxa::species_of(species_taxa, sought).is_some()
}

// Rule 6, where rule 4 has passed in both trees and no species taxon stands twice: refused at the lowest gene leaf whose taxon is no
// species taxon.
pub fn judge_known(
    species_taxa: &[u32],
    gene_taxa: &[u32],
    hints: &mut [u16; 512],
) -> Result<(), Refusal>
    requires { Alone species_taxa.now }
    ensures { JudgeKnownMeets species_taxa.now gene_taxa.now result }
{
    if all_held(species_taxa, hints, gene_taxa) {
        return Ok(());
    }
    judge_each(
        6,
        2,
        gene_taxa.len(),
        |i| known_at(species_taxa, gene_taxa, GeneNode(i)),
    )
}
