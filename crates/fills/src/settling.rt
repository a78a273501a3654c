// The places of the gene leaves. A place that carries a leaf's taxon is its home, whoever has put it there, since no taxon stands
// twice: so rounds of hints may come first, of which nothing has to be shown, and a scan finds what they have left.
ghost use Rattle.std.specs.Prelude.{◌<◌, length, T};
ghost use Rattle.hints.specs.Promises.{EnterMeets};
ghost use Rattle.fills.specs.Filling.{Kept};
ghost use Rattle.fills.specs.Settling.{Carries, Seatable, Asking, Roomy, Settleable, Settled, Seated};

use trees::{GeneNode, SpeciesNode};

// Does the place carry the taxon?
fn carries(species_taxa: &[u32], place: SpeciesNode, sought: u32) -> bool
    ensures { T result → Carries species_taxa.now sought place.0 }
{
    let s = place.0;
    s < species_taxa.len() && species_taxa[s] == sought
}

// ---- the rounds

// A gene leaf that isn't at its home yet is put where a hint leads to.
fn ask_for(
    species_taxa: &[u32],
    hints: &[u16; 512],
    gene_taxa: &[u32],
    places: &mut [u16],
    node: GeneNode,
)
    requires { (node.0 < length gene_taxa.now) × Asking species_taxa.now gene_taxa.now places.old }
    ensures { Kept (length gene_taxa.now) places.old places.new }
{
    let g = node.0;
    let sought = gene_taxa[g];
    if sought == 0 {
        return;
    }
    let place = SpeciesNode(places[g] as usize);
    if carries(species_taxa, place, sought) {
        return;
    }
    if let Some(home) = hints::ask(species_taxa, hints, sought) {
        places[g] = home.0 as u16;
    }
}

// The gene leaves in turn, with the hints of one round.
fn ask_all(species_taxa: &[u32], hints: &[u16; 512], gene_taxa: &[u32], places: &mut [u16])
    requires { Asking species_taxa.now gene_taxa.now places.old }
    ensures { Kept (length gene_taxa.now) places.old places.new }
{
    for g in 0..gene_taxa.len() {
        ask_for(species_taxa, hints, gene_taxa, places, GeneNode(g));
    }
}

// One round, with hints to the next species leaves from `from` on. Answers where the next round begins. The hints are the one table on
// the stack, 1,024 bytes, which are not on it while the trees are judged: so it is kept a function of its own in the machine code.
#[inline(never)]
fn round(species_taxa: &[u32], gene_taxa: &[u32], places: &mut [u16], from: usize) -> usize
    requires { (from < length species_taxa.now) × Roomy species_taxa.now gene_taxa.now places.old }
    ensures { EnterMeets species_taxa.now from result × Kept (length gene_taxa.now) places.old places.new }
{
    let mut hints = [0u16; 512];
    let next = hints::enter(species_taxa, &mut hints, from);
    ask_all(species_taxa, &hints, gene_taxa, places);
    next
}

// As many rounds as there are species leaves for.
fn rounds(species_taxa: &[u32], gene_taxa: &[u32], places: &mut [u16])
    requires { Roomy species_taxa.now gene_taxa.now places.old }
    ensures { Kept (length gene_taxa.now) places.old places.new }
{
    let mut from = 0;
    while from < species_taxa.len() {
        from = round(species_taxa, gene_taxa, places, from);
    }
}

// ---- the scan

// The place, if it carries the taxon, or else the species node that does.
fn seat(species_taxa: &[u32], place: SpeciesNode, sought: u32) -> SpeciesNode
    requires { Seatable species_taxa.now sought }
    ensures { Carries species_taxa.now sought result.0 }
{
    if carries(species_taxa, place, sought) {
        return place;
    }
    taxa::species_of(species_taxa, sought).unwrap_or(place)
}

// A gene leaf is put to its home.
fn settle_at(species_taxa: &[u32], gene_taxa: &[u32], places: &mut [u16], node: GeneNode)
    requires { (node.0 < length gene_taxa.now) × Settleable species_taxa.now gene_taxa.now places.old }
    ensures { Seated species_taxa.now gene_taxa.now node.0 places.old places.new }
{
    let g = node.0;
    let sought = gene_taxa[g];
    if sought == 0 {
        return;
    }
    let place = SpeciesNode(places[g] as usize);
    let home = seat(species_taxa, place, sought);
    places[g] = home.0 as u16;
}

// Every gene leaf is put to its home.
pub(crate) fn settle(species_taxa: &[u32], gene_taxa: &[u32], places: &mut [u16])
    requires { Settleable species_taxa.now gene_taxa.now places.old }
    ensures { Settled species_taxa.now gene_taxa.now (length gene_taxa.now) places.old places.new }
{
    rounds(species_taxa, gene_taxa, places);
    for g in 0..gene_taxa.len() {
        settle_at(species_taxa, gene_taxa, places, GeneNode(g));
    }
}
