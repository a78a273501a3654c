// Rules 8 and 9 of an offered history, each refused at the lowest gene node at which it does not hold. Rule 8 has a quick test, in
// three passes over tables: if it says yes, the rule holds everywhere; if it says no, the search tells where it does not.
#![tactic(auto)]

ghost use Rattle.std.specs.Prelude.{◌≡◌, ◌↔◌, ℕ, ◌≤◌, ◌<◌, length, get_or, T, ◌||◌, eqb};
ghost use Rattle.trees.specs.Lists.{pick};
ghost use Rattle.fitting.specs.Tests.{fitting_by};
ghost use Rattle.fitting.specs.Promises.{Fitting, Placed, JudgeFittingMeets, JudgeHomesMeets};
ghost use Rattle.fitting.specs.Passes.{Matching};

use homes::homed_at;
use passes::all_below;
use trees::{GeneNode, Refusal, judge_each};

// 1 if a node has both a label other than 0 and a taxon, or neither, else 0.
fn mismatched(kind: u16, taxon: u32) -> u16
    ensures { (result ≤ 1) × ((result ≡ 0) ↔ Matching kind taxon) }
{
    u16::from((kind == 0) == (taxon == 0))
}

// Have just the nodes with a taxon, the leaves, label 0?
fn all_matching(gene_taxa: &[u32], labels: &[u16]) -> bool
    requires { (length gene_taxa.now ≤ length labels.now) × (length gene_taxa.now ≤ 2047) }
    ensures { T result → (g : ℕ) → g < length gene_taxa.now → Matching (get_or labels.now g 0) (get_or gene_taxa.now g 0) }
{
    let mut wrong: u16 = 0;
    for g in 0..gene_taxa.len() {
        wrong += mismatched(labels[g], gene_taxa[g]);
    }
    wrong == 0
}

// Does rule 8 hold everywhere? A yes is certain.
fn all_fitting(p: u16, gene_taxa: &[u32], places: &[u16], labels: &[u16]) -> bool
    requires { Fitting gene_taxa.now places.now labels.now }
    ensures { T result → (g : ℕ) → g < length gene_taxa.now → T (fitting_by p gene_taxa.now places.now labels.now g) }
{
    let q = gene_taxa.len();
    all_below(places, q, p) && all_below(labels, q, 3) && all_matching(gene_taxa, labels)
}

// Is this a label for a node with that taxon: 0 for a leaf, 1 or 2 for an inner node?
#[tactic(auto, unfolding(trees::specs::Lists::pick))]
fn right_kind(kind: u16, taxon: u32) -> bool
    ensures { result ≡ pick (eqb taxon 0) (eqb kind 1 || eqb kind 2) (eqb kind 0) }
{
    if taxon == 0 {
        kind == 1 || kind == 2
    } else {
        kind == 0
    }
}

// Rule 8 at one gene node.
#[tactic(auto, unfolding(crate::specs::Tests::fitting_by))]
fn fitting_at(p: usize, gene_taxa: &[u32], places: &[u16], labels: &[u16], node: GeneNode) -> bool
    requires { (node.0 < length gene_taxa.now) × (node.0 < length places.now) × (node.0 < length labels.now) }
    ensures { result ≡ fitting_by p gene_taxa.now places.now labels.now node.0 }
{
    let g = node.0;
    usize::from(places[g]) < p && right_kind(labels[g], gene_taxa[g])
}

// Rule 8, node by node: refused at the lowest gene node whose place is no species node or whose label is wrong in kind.
fn first_unfitting(
    p: usize,
    gene_taxa: &[u32],
    places: &[u16],
    labels: &[u16],
) -> Result<(), Refusal>
    requires { Fitting gene_taxa.now places.now labels.now }
    ensures { JudgeFittingMeets p gene_taxa.now places.now labels.now result }
{
    judge_each(8, 2, gene_taxa.len(), |g| {
        fitting_at(p, gene_taxa, places, labels, GeneNode(g))
    })
}

// Rule 8: refused at the lowest gene node whose place is none of the p species nodes or whose label is wrong in kind.
pub fn judge_fitting(
    p: usize,
    gene_taxa: &[u32],
    places: &[u16],
    labels: &[u16],
) -> Result<(), Refusal>
    requires { (p ≤ 2047) × Fitting gene_taxa.now places.now labels.now }
    ensures { JudgeFittingMeets p gene_taxa.now places.now labels.now result }
{
    if all_fitting(p as u16, gene_taxa, places, labels) {
        return Ok(());
    }
    first_unfitting(p, gene_taxa, places, labels)
}

// Rule 9, where rule 8 holds: refused at the lowest gene leaf that is not at its species.
pub fn judge_homes(species_taxa: &[u32], gene_taxa: &[u32], places: &[u16]) -> Result<(), Refusal>
    requires { Placed species_taxa.now gene_taxa.now places.now }
    ensures { JudgeHomesMeets species_taxa.now gene_taxa.now places.now result }
{
    judge_each(9, 2, gene_taxa.len(), |g| {
        homed_at(species_taxa, gene_taxa, places, GeneNode(g))
    })
}
