// An order in which parents come first, for tables in any order; and with it rules 2 and 38 where a large stack is there anyway. The
// tables may be of either tree: indices are those of the table handed in, and a refusal names its tree.
//
// From each node in turn the way goes up to the first node that is listed already, or to the root, and is noted; then it is listed
// backwards, so that parents come first. A way of n steps that meets neither ends nowhere.
#![tactic(auto)]

ghost use Rattle.std.specs.Prelude.{◌≡◌, ◌≤◌, ◌<◌, length};
ghost use Rattle.trees.specs.Lists.{lowest};
ghost use Rattle.trees.specs.Rules.{reaching};
ghost use Rattle.roots.specs.Promises.{JudgeRootsMeets};
ghost use Rattle.roots.specs.Ways.{Entries};
ghost use Rattle.orders.specs.Listing.{Room, spot_over_lem, WayMeets, Next, Done, Listable, Listed};
ghost use Rattle.orders.specs.Promises.{Orderable, Lost, OrderMeets};

use trees::{Refusal, refuse};

// Notes the way up from a node to the first listed node or to the root. Answers how many of its nodes are noted, if it ends there.
fn note_way(parents: &[u16], spots: &[u16], way: &mut [u16], node: usize) -> Option<usize>
    requires { (node < length parents.now) × Room parents.now spots.now way.old }
    ensures { WayMeets parents.now spots.now node way.new result }
{
    let n = parents.len();
    let mut x = node;
    for k in 0..n {
        if spots[x] != 65535 {
            return Some(k);
        }
        way[k] = x as u16;
        let u = parents[x] as usize;
        if n <= u {
            return Some(k + 1);
        }
        x = u;
    }
    None
}

// The position of a node's parent, or 65,535 at the root.
fn spot_over(parents: &[u16], spots: &[u16], node: usize) -> u16
    requires { (node < length parents.now) × (length spots.now ≡ length parents.now) }
    ensures { result ≡ spot_over_lem parents.now spots.now node }
{
    let u = parents[node] as usize;
    if u < parents.len() { spots[u] } else { 65535 }
}

// Gives a node the next position, `count`, if it has none yet. Answers how many nodes are listed then.
#[tactic(auto, using(crate::proofs::Lists::list_few))]
fn list_node(
    parents: &[u16],
    spots: &mut [u16],
    copy: &mut [u16],
    node: usize,
    count: usize,
) -> usize
    requires { Next parents.now spots.old copy.old node count }
    ensures { Done parents.now spots.old node spots.new copy.new result }
{
    if spots[node] != 65535 {
        return count;
    }
    copy[count] = spot_over(parents, spots, node);
    spots[node] = count as u16;
    count + 1
}

// Lists the k nodes of a way backwards, from position `count` on. Answers how many nodes are listed then.
fn list_way(
    parents: &[u16],
    spots: &mut [u16],
    copy: &mut [u16],
    way: &[u16],
    k: usize,
    count: usize,
) -> usize
    requires { Listable parents.now spots.old copy.old way.now k count }
    ensures { Listed parents.now spots.old way.now k spots.new copy.new result }
{
    let mut c = count;
    for j in (0..k).rev() {
        c = list_node(parents, spots, copy, way[j] as usize, c);
    }
    c
}

// A position for each node, so that parents come first, and the parents by position, into tables of n entries. Answers the lowest node
// that never reaches the root, if there is one, and then what is in the tables is of no use.
pub fn order(parents: &[u16], spots: &mut [u16], copy: &mut [u16], way: &mut [u16]) -> Option<usize>
    requires { Orderable parents.now spots.old copy.old way.old }
    ensures { OrderMeets parents.now spots.new copy.new result }
{
    let n = parents.len();
    let mut c: usize = 0;
    for i in 0..n {
        let Some(k) = note_way(parents, spots, way, i) else {
            return Some(i);
        };
        c = list_way(parents, spots, copy, way, k, c);
    }
    None
}

// The lowest node that never reaches the root, if there is one, on a table that rule 2 has passed. 12,282 bytes of stack.
fn first_lost(parents: &[u16]) -> Option<usize>
    requires { (1 ≤ length parents.now) × Entries parents.now }
    ensures { Lost parents.now result }
{
    let n = parents.len();
    let mut spots = [65535u16; 2047];
    let mut copy = [0u16; 2047];
    let mut way = [0u16; 2047];
    order(parents, &mut spots[..n], &mut copy[..n], &mut way[..n])
}

// Rules 2 and 38 of the tree with that number.
pub fn judge_roots(tree: u16, parents: &[u16]) -> Result<(), Refusal>
    requires { (1 ≤ length parents.now) × (length parents.now ≤ 2047) }
    ensures { JudgeRootsMeets tree parents.now result }
{
    if roots::in_order(parents) {
        return Ok(());
    }
    roots::judge_parents(tree, parents)?;
    if let Some(lost) = first_lost(parents) {
        return Err(refuse(38, tree, lost));
    }
    Ok(())
}
