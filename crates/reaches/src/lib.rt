// Rules 2 and 38 on a small stack: one mark a node, in a table of 512 entries that the caller lends and that may hold anything before
// and after. The tables may be of either tree: indices are those of the table handed in, and a refusal names its tree.
//
// From each node in turn the way goes up to a node that is known to reach the root, or to the root; then the same way is gone again and
// marked. A way of n steps that meets neither ends nowhere, and the node that it began at is the lowest such, since all before it are
// known. Where the table has parents first there is nothing to look for.
#![tactic(auto)]

ghost use Rattle.std.specs.Prelude.{◌≡◌, [], ◌∷◌, ◌≤◌, ◌<◌, length};
ghost use Rattle.trees.specs.Rulings.{each, verdict};
ghost use Rattle.trees.specs.Rules.{reaching};
ghost use Rattle.trees.specs.Answers.{judged_of};
ghost use Rattle.roots.specs.Promises.{JudgeRootsMeets};
ghost use Rattle.roots.specs.Ways.{Reaching, Entries};
ghost use Rattle.reaches.specs.Knowing.{Knowing};

use trees::{Refusal, refuse};

// Does the node reach the root?
fn reaches(parents: &[u16], marks: &[u16; 512], node: usize) -> bool
    requires { (node < length parents.now) × Entries parents.now × Knowing parents.now marks.now }
    ensures { result ≡ reaching parents.now node }
{
    let n = parents.len();
    let mut x = node;
    for _ in 0..n {
        if marks::two_at(marks, x) != 0 {
            return true;
        }
        let u = parents[x] as usize;
        if n <= u {
            return true;
        }
        x = u;
    }
    false
}

// Marks the way up from a node that reaches the root, to the first node that is marked already.
fn mark_way(parents: &[u16], marks: &mut [u16; 512], node: usize)
    requires { (node < length parents.now) × Entries parents.now × Knowing parents.now marks.old × Reaching parents.now node }
    ensures { Knowing parents.now marks.new }
{
    let n = parents.len();
    let mut x = node;
    for _ in 0..n {
        if marks::two_at(marks, x) != 0 {
            return;
        }
        marks::add_one(marks, x);
        let u = parents[x] as usize;
        if n <= u {
            return;
        }
        x = u;
    }
}

// Rule 38: refused at the lowest node that never reaches the root.
fn judge_reaching(tree: u16, parents: &[u16], marks: &mut [u16; 512]) -> Result<(), Refusal>
    requires { Entries parents.now }
    ensures { judged_of result ≡ verdict (each 38 tree (length parents.now) (reaching parents.now) ∷ []) }
{
    marks::blank(marks);
    let n = parents.len();
    for i in 0..n {
        if marks::two_at(marks, i) == 0 {
            if !reaches(parents, marks, i) {
                return Err(refuse(38, tree, i));
            }
            mark_way(parents, marks, i);
        }
    }
    Ok(())
}

// Rules 2 and 38 of the tree with that number.
pub fn judge_roots(tree: u16, parents: &[u16], marks: &mut [u16; 512]) -> Result<(), Refusal>
    requires { (1 ≤ length parents.now) × (length parents.now ≤ 2047) }
    ensures { JudgeRootsMeets tree parents.now result }
{
    if roots::in_order(parents) {
        return Ok(());
    }
    roots::judge_parents(tree, parents)?;
    judge_reaching(tree, parents, marks)
}
