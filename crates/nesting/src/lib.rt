// Rules 10 and 11. The quick test makes one pass over the gene tree: if it says yes, both hold everywhere. If it says no, the
// searches tell where they do not.
#![tactic(auto)]

mod positions;

ghost use Rattle.std.specs.Prelude.{◌≡◌, ◌↔◌, ℕ, ◌≤◌, ◌<◌, length, get_or, take, T};
ghost use Rattle.trees.specs.First.{ParentsFirst};
ghost use Rattle.sides.specs.Promises.{Nestable};
ghost use Rattle.nesting.specs.Codes.{ahead_of, side_code_lem, Codable, Coded, SplitAt, Spread, Nests};
ghost use Rattle.nesting.specs.Moving.{Movable, Moved, Placeable, Put, Copied};
ghost use Rattle.nesting.specs.Promises.{JudgeNestingMeets};

use positions::Positions;
use trees::Refusal;

// How far position a lies after b; if it does not, more than any run is long.
#[tactic(auto, unfolding(crate::specs::Codes::ahead_of))]
fn ahead_of(a: u16, b: u16) -> u16
    ensures { result ≡ ahead_of a b }
{
    a.wrapping_sub(b)
}

// On which side of a node with this turn a position lies that is d after the node's own: 0 neither, 1 or 2.
fn side_code(d: u16, turn: u16) -> u16
    ensures { (result ≡ side_code_lem d turn) × (result ≤ 2) }
{
    if d == 0 {
        0
    } else if d < turn {
        1
    } else {
        2
    }
}

// Does every gene node lie inside the run of its parent's place? Then the table has the codes of each node's children added up.
fn all_inside<const N: usize>(
    gene_parents: &[u16],
    places: &[u16],
    at: &Positions<N>,
    sides: &mut [u16],
) -> bool
    requires { Codable gene_parents.now places.now at.now.starts at.now.runs at.now.turns sides.old }
    ensures { T result → Coded gene_parents.now places.now at.now.starts at.now.runs at.now.turns sides.new }
{
    let q = gene_parents.len();
    for c in 0..q {
        let u = gene_parents[c] as usize;
        if u < q {
            let a = places[u] as usize;
            let x = places[c] as usize;
            let d = ahead_of(at.starts[x], at.starts[a]);
            if at.runs[a] <= d {
                return false;
            }
            sides[u] += side_code(d, at.turns[a]);
        }
    }
    true
}

// 1 if a node of this kind is a speciation whose children's codes do not add up to 3, else 0.
fn unsplit(kind: u16, side: u16) -> u16
    ensures { (result ≤ 1) × ((result ≡ 0) ↔ (kind ≡ 1 → side ≡ 3)) }
{
    u16::from((kind == 1) & (side != 3))
}

// Do the codes of each speciation's children add up to 3, so that one child is on either side?
fn all_split(labels: &[u16], sides: &[u16], q: usize) -> bool
    requires { (q ≤ length labels.now) × (q ≤ length sides.now) × (q ≤ 2047) }
    ensures { T result → (g : ℕ) → g < q → SplitAt labels.now sides.now g }
{
    let mut wrong: u16 = 0;
    for g in 0..q {
        wrong += unsplit(labels[g], sides[g]);
    }
    wrong == 0
}

// Do all gene nodes pass both tests?
fn all_nested<const N: usize>(
    gene_parents: &[u16],
    places: &[u16],
    labels: &[u16],
    at: &Positions<N>,
    sides: &mut [u16],
) -> bool
    requires { Codable gene_parents.now places.now at.now.starts at.now.runs at.now.turns sides.old × (length gene_parents.now ≤ length labels.now) }
    ensures { T result → Spread gene_parents.now places.now labels.now at.now.starts at.now.runs at.now.turns }
{
    all_inside(gene_parents, places, at, sides) && all_split(labels, sides, gene_parents.len())
}

// The quick test for trees of at most N nodes: eight bytes of tables on the stack for each.
fn nested_in<const N: usize>(
    species_parents: &[u16],
    gene_parents: &[u16],
    places: &[u16],
    labels: &[u16],
) -> bool
    requires { Nestable species_parents.now gene_parents.now places.now labels.now × (length species_parents.now ≤ N) × (length gene_parents.now ≤ N) × (N ≤ 2047) × ParentsFirst species_parents.now }
    ensures { T result → Nests species_parents.now gene_parents.now places.now labels.now }
{
    let mut at = Positions {
        starts: [0u16; N],
        runs: [1u16; N],
        turns: [0u16; N],
    };
    let mut sides = [0u16; N];
    at.place_nodes(species_parents);
    all_nested(gene_parents, places, labels, &at, &mut sides)
}

// The places by the positions of the species nodes, into a table of as many entries as there are gene nodes.
fn move_places(spots: &[u16], places: &[u16], moved: &mut [u16])
    requires { Movable spots.now places.now moved.old }
    ensures { Moved spots.now places.now moved.new }
{
    for (g, spot) in moved.iter_mut().enumerate() {
        let s = places[g] as usize;
        *spot = spots[s];
    }
}

// Puts a copy of a species table in order, and the places with it; the last two tables are used on the way.
fn put_in_order(
    species_parents: &[u16],
    places: &[u16],
    copy: &mut [u16],
    moved: &mut [u16],
    spots: &mut [u16],
    way: &mut [u16],
)
    requires { Placeable species_parents.now places.now copy.old moved.old spots.old way.old }
    ensures { Put species_parents.now places.now copy.new moved.new }
{
    let _ = orders::order(species_parents, spots, copy, way);
    move_places(spots, places, moved);
}

// The quick test for a species table of p nodes with parents first, whose memory then serves for the sides.
fn nested_copy(
    copy: &mut [u16],
    p: usize,
    gene_parents: &[u16],
    moved: &[u16],
    labels: &[u16],
    at: &mut Positions<2047>,
) -> bool
    requires { Copied copy.old p gene_parents.now moved.now labels.now at.old.starts at.old.runs at.old.turns }
    ensures { T result → Nests (take p copy.old) gene_parents.now moved.now labels.now }
{
    at.starts[0] = 0;
    at.place_nodes(&copy[..p]);
    copy.fill(0);
    all_nested(gene_parents, moved, labels, at, copy)
}

// The quick test for a species table in any order: a copy of it is put in order. Three of the five tables on the stack, 20,470 bytes in
// all, serve twice.
fn nested_shuffled(
    species_parents: &[u16],
    gene_parents: &[u16],
    places: &[u16],
    labels: &[u16],
) -> bool
    requires { Nestable species_parents.now gene_parents.now places.now labels.now }
    ensures { T result → Nests species_parents.now gene_parents.now places.now labels.now }
{
    let p = species_parents.len();
    let q = gene_parents.len();
    let mut copy = [0u16; 2047];
    let mut moved = [0u16; 2047];
    let mut at = Positions {
        starts: [0u16; 2047],
        runs: [0u16; 2047],
        turns: [65535u16; 2047],
    };
    at.runs.fill(1);
    put_in_order(
        species_parents,
        places,
        &mut copy[..p],
        &mut moved[..q],
        &mut at.turns[..p],
        &mut at.starts[..p],
    );
    nested_copy(&mut copy, p, gene_parents, &moved[..q], labels, &mut at)
}

// Do rules 10 and 11 hold everywhere? A yes is certain. Most trees are small, and for them small tables are made. A small release in
// any order, and a large one with few genes, it is not worth while to put in order: no is said at once, and the searches do the rest. It is
// kept a function of its own in the machine code, so that its tables are off the stack when they begin.
#[inline(never)]
fn surely_nested(
    species_parents: &[u16],
    gene_parents: &[u16],
    places: &[u16],
    labels: &[u16],
) -> bool
    requires { Nestable species_parents.now gene_parents.now places.now labels.now }
    ensures { T result → Nests species_parents.now gene_parents.now places.now labels.now }
{
    if roots::in_order(species_parents) {
        if species_parents.len() <= 255 && gene_parents.len() <= 255 {
            return nested_in::<255>(species_parents, gene_parents, places, labels);
        }
        return nested_in::<2047>(species_parents, gene_parents, places, labels);
    }
    if species_parents.len() <= 255 || 8 * gene_parents.len() < species_parents.len() {
        return false;
    }
    nested_shuffled(species_parents, gene_parents, places, labels)
}

// Rules 10 and 11, where rule 8 holds: refused at the lowest gene node that is not at or below its parent's place, else at the lowest
// speciation without one child on either side.
pub fn judge_nesting(
    species_parents: &[u16],
    gene_parents: &[u16],
    places: &[u16],
    labels: &[u16],
) -> Result<(), Refusal>
    requires { Nestable species_parents.now gene_parents.now places.now labels.now }
    ensures { JudgeNestingMeets species_parents.now gene_parents.now places.now labels.now result }
{
    if surely_nested(species_parents, gene_parents, places, labels) {
        return Ok(());
    }
    sides::judge_sides(species_parents, gene_parents, places, labels)
}
