// Rules 10 and 11, by climbing the species tree from every place. What is known of a gene node's children is kept in a table, an entry
// for each gene node: 65,534 as long as none has been looked at, 65,535 once rule 11 could not hold, else the side of the first.
#![tactic(auto)]

ghost use Rattle.std.specs.Prelude.{◌≡◌, ◌||◌, ◌≤◌, ◌<◌, length, eqb};
ghost use Rattle.trees.specs.Sound.{Treelike};
ghost use Rattle.sides.specs.Promises.{Nestable, JudgeSidesMeets};
ghost use Rattle.sides.specs.Visits.{SideBy, has_side, side_entry, SmallSide, merged, Visiting, Visited, Nesting, Nested, parted_in, Parted};

use trees::{GeneNode, Refusal, SpeciesNode, judge_each, refuse};

// The child of species node `above` that the place is at or below; nowhere if the place is not properly below it.
fn side_of(species_parents: &[u16], above: SpeciesNode, place: SpeciesNode) -> Option<SpeciesNode>
    requires { Treelike species_parents.now × (above.0 < length species_parents.now) × (place.0 < length species_parents.now) }
    ensures { SideBy species_parents.now above.0 place.0 result }
{
    let n = species_parents.len();
    let a = above.0;
    let mut s = place.0;
    if s == a {
        return None;
    }
    loop {
        let u = species_parents[s] as usize;
        if u == a {
            return Some(SpeciesNode(s));
        }
        if n <= u {
            return None;
        }
        s = u;
    }
}

// Is a place at or below another, of which it lies on this side?
fn within(place: SpeciesNode, above: SpeciesNode, side: Option<SpeciesNode>) -> bool
    ensures { result ≡ (eqb place.0 above.0 || has_side side) }
{
    place == above || side.is_some()
}

// What is known of a gene node's children once one more has been looked at, which lies on this side.
#[tactic(auto, unfolding(crate::specs::Visits::merged, trees::specs::Lists::pick))]
fn merge(seen: u16, side: Option<SpeciesNode>) -> u16
    requires { SmallSide side }
    ensures { result ≡ merged seen (side_entry side) }
{
    let Some(node) = side else {
        return 65535;
    };
    let s = node.0 as u16;
    if seen == 65534 {
        return s;
    }
    if seen == s {
        return 65535;
    }
    seen
}

// Rule 10 at one gene node; where it holds, what is known of its parent's children grows.
fn visit(
    species_parents: &[u16],
    gene_parents: &[u16],
    places: &[u16],
    sides: &mut [u16],
    node: GeneNode,
) -> bool
    requires { Visiting species_parents.now gene_parents.now places.now node.0 sides.old }
    ensures { Visited species_parents.now gene_parents.now places.now node.0 sides.new result }
{
    let c = node.0;
    let u = gene_parents[c] as usize;
    if gene_parents.len() <= u {
        return true;
    }
    let above = SpeciesNode(places[u] as usize);
    let place = SpeciesNode(places[c] as usize);
    let side = side_of(species_parents, above, place);
    if !within(place, above, side) {
        return false;
    }
    sides[u] = merge(sides[u], side);
    true
}

// Rule 10: refused at the lowest gene node that is not at or below its parent's place; else the table has what is known of each
// node's children.
fn judge_nested(
    species_parents: &[u16],
    gene_parents: &[u16],
    places: &[u16],
    sides: &mut [u16],
) -> Result<(), Refusal>
    requires { Nesting species_parents.now gene_parents.now places.now sides.old }
    ensures { Nested species_parents.now gene_parents.now places.now sides.new result }
{
    for c in 0..gene_parents.len() {
        if !visit(species_parents, gene_parents, places, sides, GeneNode(c)) {
            return Err(refuse(10, 2, c));
        }
    }
    Ok(())
}

// Rule 11 at one gene node.
#[tactic(auto, unfolding(crate::specs::Visits::parted_in, trees::specs::Lists::pick))]
fn parted_at(labels: &[u16], sides: &[u16], node: GeneNode) -> bool
    requires { (node.0 < length labels.now) × (node.0 < length sides.now) }
    ensures { result ≡ parted_in labels.now sides.now node.0 }
{
    let g = node.0;
    labels[g] != 1 || sides[g] != 65535
}

// Rule 11: refused at the lowest of q gene nodes that is a speciation without one child on either side.
fn judge_parted(labels: &[u16], sides: &[u16], q: usize) -> Result<(), Refusal>
    requires { (q ≤ length labels.now) × (q ≤ length sides.now) }
    ensures { Parted labels.now sides.now q result }
{
    judge_each(11, 2, q, |g| parted_at(labels, sides, GeneNode(g)))
}

// Rules 10 and 11, where rule 8 holds: refused at the lowest gene node that is not at or below its parent's place, else at the lowest
// speciation without one child on either side. 4,094 bytes of stack, which are not on it while a quick test runs: so it is kept a function of
// its own in the machine code.
#[inline(never)]
pub fn judge_sides(
    species_parents: &[u16],
    gene_parents: &[u16],
    places: &[u16],
    labels: &[u16],
) -> Result<(), Refusal>
    requires { Nestable species_parents.now gene_parents.now places.now labels.now }
    ensures { JudgeSidesMeets species_parents.now gene_parents.now places.now labels.now result }
{
    let mut sides = [65534u16; 2047];
    judge_nested(species_parents, gene_parents, places, &mut sides)?;
    judge_parted(labels, &sides, gene_parents.len())
}
