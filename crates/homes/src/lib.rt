// Are all gene leaves at their species? A leaf is there exactly if its place carries its taxon, since no taxon stands twice among the
// species. So a history's own places tell where each gene taxon is; what they tell is tested, and nothing is searched for.
#![tactic(auto)]

ghost use Rattle.homes.specs.Promises.{Homeable, HomedAtMeets, AllHomedMeets};

use trees::GeneNode;

// Has the gene node no taxon, or a place that carries it?
#[tactic(auto, unfolding(crate::specs::Homes::homed_by))]
pub fn homed_at(species_taxa: &[u32], gene_taxa: &[u32], places: &[u16], node: GeneNode) -> bool
    requires { Homeable species_taxa.now gene_taxa.now places.now node.0 }
    ensures { HomedAtMeets species_taxa.now gene_taxa.now places.now node.0 result }
{
    let taxon = gene_taxa[node.0];
    taxon == 0 || species_taxa[usize::from(places[node.0])] == taxon
}

// Is every place a species node, and each gene leaf at its species? Tables of any length may be handed in; over 65,535 species are no.
pub fn all_homed(species_taxa: &[u32], gene_taxa: &[u32], places: &[u16]) -> bool
    ensures { AllHomedMeets species_taxa.now gene_taxa.now places.now result }
{
    let q = gene_taxa.len();
    let Ok(limit) = u16::try_from(species_taxa.len()) else {
        return false;
    };
    if !passes::all_below(places, q, limit) {
        return false;
    }
    (0..q).all(|g| homed_at(species_taxa, gene_taxa, places, GeneNode(g)))
}
