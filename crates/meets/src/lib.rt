// Where two species nodes meet: their lowest common ancestor.
//
// Where parents come first, the one with the higher number goes up. In any other order no number tells which of two nodes is deeper, so
// an ancestor that both have is looked for near by, and else the root is taken: the steps to it tell by how much one is deeper than the
// other. The deeper one goes up by that, then both together. It takes no table.
#![tactic(auto)]

ghost use Rattle.std.specs.Prelude.{◌≤◌, ◌<◌, ◌≡◌, length, T, ℕ, List};
ghost use Rattle.trees.specs.Trees.{Meet};
ghost use Rattle.trees.specs.First.{ParentsFirst};
ghost use Rattle.trees.specs.Sound.{Treelike};
ghost use Rattle.meets.specs.Climbing.{deep, Gone, Found, Apart};
ghost use Rattle.meets.specs.Promises.{JoinMeets};

use std::marker::Model;
use trees::SpeciesNode;

// A node and the steps that were gone up to it.
#[derive(Clone, Copy)]
struct Climb {
    node: SpeciesNode,
    steps: usize,
}

// The steps from two nodes up to an ancestor of both.
#[derive(Clone, Copy)]
struct Steps {
    left: usize,
    right: usize,
}

// The table of parents of a tree: that it is one holds of every value.
#[derive(Drop)]
struct Parents<'a> {
    table: &'a [u16],
}

impl<'a> Model for Parents<'a> {
    ghost Value = { List ℕ };

    ghost view = { λ p. p.table.now };

    ghost invariant = { λ p. Treelike p.table.now };
}

impl<'a> Parents<'a> {
    // With parents first: the one with the higher number goes up until both are one.
    fn join_ordered(&self, a: SpeciesNode, b: SpeciesNode) -> SpeciesNode
        requires { (a.0 < length self.now) × (b.0 < length self.now) × ParentsFirst self.now }
        ensures { Meet self.now a.0 b.0 result.0 }
    {
        let parents = self.table;
        let mut x = a.0;
        let mut y = b.0;
        while x != y {
            if y < x {
                x = parents[x] as usize;
            } else {
                y = parents[y] as usize;
            }
        }
        SpeciesNode(x)
    }

    // The node that many steps above a node; the root if there are fewer.
    fn go_up(&self, node: SpeciesNode, most: usize) -> Climb
        requires { node.0 < length self.now }
        ensures { Gone self.now node.0 most result }
    {
        let parents = self.table;
        let n = parents.len();
        let mut x = node.0;
        for steps in 0..most {
            let u = parents[x] as usize;
            if n <= u {
                return Climb {
                    node: SpeciesNode(x),
                    steps,
                };
            }
            x = u;
        }
        Climb {
            node: SpeciesNode(x),
            steps: most,
        }
    }

    // The steps from a node up to another, if it is met within `most`.
    fn steps_to(&self, node: SpeciesNode, goal: SpeciesNode, most: usize) -> Option<usize>
        requires { (node.0 < length self.now) × (most ≤ 4094) }
        ensures { Found self.now node.0 goal.0 result }
    {
        let parents = self.table;
        let n = parents.len();
        let g = goal.0;
        let mut x = node.0;
        for k in 0..most + 1 {
            if x == g {
                return Some(k);
            }
            let u = parents[x] as usize;
            if n <= u {
                return None;
            }
            x = u;
        }
        None
    }

    // The steps from two nodes to an ancestor of both: the one that is 1 or 2 steps above b is looked for twice as far above a. If the two
    // are further apart, the steps to the root.
    fn shared(&self, a: SpeciesNode, b: SpeciesNode) -> Steps
        requires { (a.0 < length self.now) × (b.0 < length self.now) }
        ensures apart { Apart self.now a.0 b.0 result }
        ensures tree { Treelike self.now }
    {
        let n = self.table.len();
        for k in 1..3 {
            let c = self.go_up(b, k);
            if let Some(left) = self.steps_to(a, c.node, 2 * k) {
                return Steps {
                    left,
                    right: c.steps,
                };
            }
        }
        let x = self.go_up(a, n);
        let y = self.go_up(b, n);
        Steps {
            left: x.steps,
            right: y.steps,
        }
    }

    // Two nodes that are equally deep go up together until they are one.
    fn together(&self, a: SpeciesNode, b: SpeciesNode) -> SpeciesNode
        requires { (a.0 < length self.now) × (b.0 < length self.now) × (deep self.now a.0 ≡ deep self.now b.0) }
        ensures { Meet self.now a.0 b.0 result.0 }
    {
        let parents = self.table;
        let mut x = a.0;
        let mut y = b.0;
        while x != y {
            x = parents[x] as usize;
            y = parents[y] as usize;
        }
        SpeciesNode(y)
    }

    // In any order: the deeper one goes up until both are equally deep, then both go up.
    fn join_any(&self, a: SpeciesNode, b: SpeciesNode) -> SpeciesNode
        requires { (a.0 < length self.now) × (b.0 < length self.now) }
        ensures { Meet self.now a.0 b.0 result.0 }
    {
        let apart = self.shared(a, b);
        if apart.right < apart.left {
            let x = self.go_up(a, apart.left - apart.right);
            return self.together(x.node, b);
        }
        let y = self.go_up(b, apart.right - apart.left);
        self.together(a, y.node)
    }
}

// The lowest common ancestor of two species nodes. `ordered`: the table has parents first.
pub fn join(species_parents: &[u16], a: SpeciesNode, b: SpeciesNode, ordered: bool) -> SpeciesNode
    requires { Treelike species_parents.now × (a.0 < length species_parents.now) × (b.0 < length species_parents.now) × (T ordered → ParentsFirst species_parents.now) }
    ensures { JoinMeets species_parents.now a.0 b.0 result }
{
    if a == b {
        return a;
    }
    let parents = Parents {
        table: species_parents,
    };
    if ordered {
        return parents.join_ordered(a, b);
    }
    parents.join_any(a, b)
}
