// Rules 5 and 6: no species taxon stands twice, and each gene taxon is a species taxon. And where a taxon stands.
//
// Nodes are found by their taxon through chains. All species nodes whose taxa share a slot are one chain, the highest node first:
// `heads` has the first node of each chain and `earlier` the next lower one of a node's chain, each as the node plus 1, with 0 for
// none. So a search meets every node that could carry the taxon, and few others. Inner nodes, with taxon 0, are in no chain.
#![tactic(auto)]

ghost use Rattle.std.specs.Prelude.{◌≡◌, ◌≢◌, ◌≤◌, ◌<◌, length};
ghost use Rattle.taxa.specs.Searches.{known_taxon};
ghost use Rattle.taxa.specs.Chains.{FoundBy, Chained, Entered, Indexed, Alone};
ghost use Rattle.taxa.specs.Promises.{JudgeRepeatsMeets, JudgeKnownMeets, SpeciesOfMeets};

use trees::{GeneNode, Refusal, SpeciesNode, judge_each, refuse, slot_of};

// Species nodes by their taxa, at most N.
#[derive(Drop)]
struct ByTaxon<const N: usize> {
    heads: [u16; 2048],
    earlier: [u16; N],
}

// Species nodes that are all in their chains: that they are holds of every value.
#[derive(Drop)]
struct Lookup<'a, const N: usize> {
    taxa: &'a [u32],
    nodes: &'a ByTaxon<N>,
    ghost whole: { Chained taxa.now (length taxa.now) nodes.now },
}

impl<'a, const N: usize> Lookup<'a, N> {
    // The species node that carries the taxon.
    #[tactic(auto, using(crate::proofs::Chains::slot_low))]
    fn find(&self, taxon: u32) -> Option<SpeciesNode>
        requires { taxon ≢ 0 }
        ensures { FoundBy self.now.taxa.now taxon result }
    {
        let taxa = self.taxa;
        let nodes = self.nodes;
        let mut at = nodes.heads[slot_of(taxon, 2048)] as usize;
        while 0 < at {
            let k = at - 1;
            if taxa[k] == taxon {
                return Some(SpeciesNode(k));
            }
            at = nodes.earlier[k] as usize;
        }
        None
    }

    // Rule 6 at one gene node, where rule 4 has passed in both trees.
    #[tactic(auto, unfolding(crate::specs::Searches::known_taxon))]
    fn known_at(&self, gene_taxa: &[u32], node: GeneNode) -> bool
        requires { node.0 < length gene_taxa.now }
        ensures { result ≡ known_taxon self.now.taxa.now gene_taxa.now node.0 }
    {
        let sought = gene_taxa[node.0];
        if sought == 0 {
            return true;
        }
        self.find(sought).is_some()
    }
}

impl<const N: usize> ByTaxon<N> {
    // Rule 5 at a species node, where the nodes below it are in their chains; where it holds, the node is in its chain too.
    #[tactic(auto, using(crate::proofs::Chains::slot_low))]
    fn enter(&mut self, taxa: &[u32], node: SpeciesNode) -> bool
        requires { (node.0 < length taxa.now) × Chained taxa.now node.0 self.old }
        ensures { Entered taxa.now node.0 self.new result }
    {
        let i = node.0;
        let taxon = taxa[i];
        if taxon == 0 {
            return true;
        }
        let below = Lookup {
            taxa: &taxa[..i],
            nodes: self,
        };
        if below.find(taxon).is_some() {
            return false;
        }
        let s = slot_of(taxon, 2048);
        self.earlier[i] = self.heads[s];
        self.heads[s] = (i + 1) as u16;
        true
    }

    // Rule 5: refused at the lowest node whose taxon stands at a lower node too; else each node is in its chain. Both tables begin as
    // zeros.
    fn enter_all(&mut self, taxa: &[u32]) -> Result<(), Refusal>
        requires { Chained taxa.now 0 self.old }
        ensures { Indexed taxa.now self.new result }
    {
        for i in 0..taxa.len() {
            if !self.enter(taxa, SpeciesNode(i)) {
                return Err(refuse(5, 1, i));
            }
        }
        Ok(())
    }
}

// ---- rule 5

// Rule 5 of at most N nodes: 4,096 bytes of stack, and two for each of the N.
fn repeats_in<const N: usize>(taxa: &[u32]) -> Result<(), Refusal>
    requires { (length taxa.now ≤ N) × (N ≤ 2047) }
    ensures { JudgeRepeatsMeets taxa.now result }
{
    let mut nodes: ByTaxon<N> = ByTaxon {
        heads: [0u16; 2048],
        earlier: [0u16; N],
    };
    nodes.enter_all(taxa)
}

// Rule 5, of species tables of which rule 4 holds: refused at the lowest leaf whose taxon stands at a lower leaf too.
pub fn judge_repeats(taxa: &[u32]) -> Result<(), Refusal>
    requires { length taxa.now ≤ 2047 }
    ensures { JudgeRepeatsMeets taxa.now result }
{
    if taxa.len() <= 255 {
        return repeats_in::<255>(taxa);
    }
    repeats_in::<2047>(taxa)
}

// ---- rule 6

// Rule 6 at every gene node.
fn all_known(species: &Lookup<2047>, gene_taxa: &[u32]) -> Result<(), Refusal>
    ensures { JudgeKnownMeets species.now.taxa.now gene_taxa.now result }
{
    judge_each(
        6,
        2,
        gene_taxa.len(),
        |i| species.known_at(gene_taxa, GeneNode(i)),
    )
}

// Rule 6, where rule 4 has passed in both trees and no species taxon stands twice: refused at the lowest gene leaf whose taxon is no
// species taxon. 8,190 bytes of stack.
pub fn judge_known(species_taxa: &[u32], gene_taxa: &[u32]) -> Result<(), Refusal>
    requires { Alone species_taxa.now }
    ensures { JudgeKnownMeets species_taxa.now gene_taxa.now result }
{
    let mut nodes = ByTaxon {
        heads: [0u16; 2048],
        earlier: [0u16; 2047],
    };
    // no taxon stands twice, so that each node is in its chain
    let _ = nodes.enter_all(species_taxa);
    let species = Lookup {
        taxa: species_taxa,
        nodes: &nodes,
    };
    all_known(&species, gene_taxa)
}

// ---- where a taxon stands

// The lowest species node that carries the taxon.
#[tactic(auto, using(crate::proofs::Tests::spot_here))]
pub fn species_of(species_taxa: &[u32], taxon: u32) -> Option<SpeciesNode>
    ensures { SpeciesOfMeets species_taxa.now taxon result }
{
    for (i, &x) in species_taxa.iter().enumerate() {
        if x == taxon {
            return Some(SpeciesNode(i));
        }
    }
    None
}
