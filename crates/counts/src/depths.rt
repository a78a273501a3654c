// The depth of each species node, in one table. With parents first one pass will do. In any other order an entry of 65,535 says that a
// depth is not known yet: from each node in turn the way goes up to a node whose depth is known, or to the root, which tells how deep
// the node is; then the same way is gone again and noted. Each node is passed twice at most before its depth is known.
ghost use Rattle.std.specs.Prelude.{◌≡◌, ◌<◌, length, replicate, ℕ, List};
ghost use Rattle.trees.specs.Trees.{depth};
ghost use Rattle.trees.specs.Sound.{Treelike};
ghost use Rattle.trees.specs.First.{ParentsFirst};
ghost use Rattle.histories.specs.Histories.{every_node};
ghost use Rattle.counts.specs.Sums.{Deep};
ghost use Rattle.counts.specs.Noting.{Noting, Noted};

use std::marker::Model;
use trees::SpeciesNode;

// The table of parents of a tree: that it is one holds of every value.
#[derive(Drop)]
struct Parents<'a> {
    table: &'a [u16],
}

impl<'a> Model for Parents<'a> {
    ghost Value = { List ℕ };

    ghost view = { λ p. p.table.now };

    ghost invariant = { λ p. Treelike p.table.now };
}

impl<'a> Parents<'a> {
    // With parents first: the parent's depth stands, and one more is the node's.
    fn fill_ordered(&self, depths: &mut [u16])
        requires { (length depths.old ≡ 2047) × ParentsFirst self.now }
        ensures { Deep self.now depths.new }
    {
        let parents = self.table;
        depths[0] = 0;
        for i in 1..parents.len() {
            let u = parents[i] as usize;
            depths[i] = depths[u] + 1;
        }
    }

    // The depth of a node, by the depths that are known.
    fn depth_by(&self, depths: &[u16], node: SpeciesNode) -> u16
        requires { Noting self.now depths.now × (node.0 < length self.now) }
        ensures { result ≡ depth self.now every_node node.0 }
    {
        let parents = self.table;
        let n = parents.len();
        let mut x = node.0;
        let mut k: u16 = 0;
        while depths[x] == 65535 {
            let u = parents[x] as usize;
            if n <= u {
                return k;
            }
            x = u;
            k += 1;
        }
        depths[x] + k
    }

    // Notes the depth of a node, and those on the way up from it, to the first that is known.
    fn note_way(&self, depths: &mut [u16], node: SpeciesNode, deep: u16)
        requires { Noting self.now depths.old × (node.0 < length self.now) × (deep ≡ depth self.now every_node node.0) }
        ensures { Noted self.now node.0 depths.old depths.new }
    {
        let parents = self.table;
        let n = parents.len();
        let mut x = node.0;
        let mut d = deep;
        while depths[x] == 65535 {
            depths[x] = d;
            let u = parents[x] as usize;
            if n <= u {
                return;
            }
            x = u;
            d -= 1;
        }
    }

    // In any order: each node's depth in turn.
    fn fill_any(&self, depths: &mut [u16])
        requires { depths.old ≡ replicate 2047 65535 }
        ensures { Deep self.now depths.new }
    {
        for i in 0..self.table.len() {
            let deep = self.depth_by(depths, SpeciesNode(i));
            self.note_way(depths, SpeciesNode(i), deep);
        }
    }
}

// The depth of each species node. No depth is known at first.
pub(crate) fn fill_depths(parents: &[u16], depths: &mut [u16])
    requires { Treelike parents.now × (depths.old ≡ replicate 2047 65535) }
    ensures { Deep parents.now depths.new }
{
    let ordered = roots::in_order(parents);
    let parents = Parents { table: parents };
    if ordered {
        parents.fill_ordered(depths);
    } else {
        parents.fill_any(depths);
    }
}
