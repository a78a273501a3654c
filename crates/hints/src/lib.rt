// Hints where a taxon stands, in a table of a kilobyte: 512 entries, each a species node plus 1, or 0 for none. A round enters up to
// 256 leaves, each at the slot of its taxon or the next free entry. A hint counts only if the node there carries the taxon sought, so
// that nothing has to be known of what a table holds.
#![tactic(auto)]

ghost use Rattle.std.specs.Prelude.{◌≡◌, ◌+◌, ◌≤◌, ◌<◌, length};
ghost use Rattle.hints.specs.Hints.{hits};
ghost use Rattle.hints.specs.Promises.{EnterMeets, AskMeets};

use trees::{SpeciesNode, slot_of};

// ---- a round

// No hint is left.
fn clear(hints: &mut [u16; 512]) {
    hints.fill(0);
}

// The first free entry from a slot on, or 0 if all are taken.
fn first_free(hints: &[u16; 512], slot: usize) -> usize
    requires { slot < 512 }
    ensures { result < 512 }
{
    for at in slot..slot + 512 {
        let k = at % 512;
        if hints[k] == 0 {
            return k;
        }
    }
    0
}

// A hint to the node, if it carries a taxon. Answers whether one was made.
fn hint_at(species_taxa: &[u32], hints: &mut [u16; 512], node: SpeciesNode) -> bool
    requires { (node.0 < length species_taxa.now) × (length species_taxa.now ≤ 2047) }
{
    let i = node.0;
    let taxon = species_taxa[i];
    if taxon == 0 {
        return false;
    }
    let s = slot_of(taxon, 512);
    let k = first_free(hints, s);
    hints[k] = (i + 1) as u16;
    true
}

// A round: the table has hints to the next leaves from `from` on, 256 or as many as there are left. Answers where the next round
// begins.
pub fn enter(species_taxa: &[u32], hints: &mut [u16; 512], from: usize) -> usize
    requires { (from < length species_taxa.now) × (length species_taxa.now ≤ 2047) }
    ensures { EnterMeets species_taxa.now from result }
{
    clear(hints);
    let n = species_taxa.len();
    let mut left: usize = 256;
    for i in from..n {
        if left == 0 {
            return i;
        }
        left -= usize::from(hint_at(species_taxa, hints, SpeciesNode(i)));
    }
    n
}

// ---- a question

// Does a hint lead to a node that carries the taxon?
#[tactic(auto, unfolding(crate::specs::Hints::hits))]
fn hits_at(species_taxa: &[u32], hint: usize, taxon: u32) -> bool
    requires { 1 ≤ hint }
    ensures { result ≡ hits species_taxa.now taxon hint }
{
    let k = hint - 1;
    k < species_taxa.len() && species_taxa[k] == taxon
}

// A species node that carries the taxon, if a hint leads to one. Equal taxa get equal answers.
pub fn ask(species_taxa: &[u32], hints: &[u16; 512], taxon: u32) -> Option<SpeciesNode>
    ensures { AskMeets species_taxa.now hints.now taxon result }
{
    let slot = slot_of(taxon, 512);
    for at in slot..slot + 512 {
        let hint = hints[at % 512] as usize;
        if hint == 0 {
            return None;
        }
        if hits_at(species_taxa, hint, taxon) {
            return Some(SpeciesNode(hint - 1));
        }
    }
    None
}
