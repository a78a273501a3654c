// Rules 2, 38, 3 and 4 on a small stack: children are counted with two bits a node, in a table of 512 entries that the caller lends and
// that may hold anything before and after. The tables may be of either tree: indices are those of the table handed in, and a refusal
// names its tree.
//
// A first pass finds out whether anything is wrong, and not where. Only where it cannot say yes a scan of the parents counts the
// children of one node after another.
#![tactic(auto)]

ghost use Rattle.std.specs.Prelude.{◌≡◌, ℕ, ◌≤◌, ◌<◌, length, T, [], ◌∷◌};
ghost use Rattle.trees.specs.Trees.{kids};
ghost use Rattle.trees.specs.Tables.{taxon};
ghost use Rattle.trees.specs.Rulings.{verdict, each};
ghost use Rattle.trees.specs.Rules.{sized, paired, marked, child_rules};
ghost use Rattle.trees.specs.Answers.{judged_of};
ghost use Rattle.shapes.specs.Counts.{wanted_count};
ghost use Rattle.shapes.specs.Promises.{JudgeShapeMeets};
ghost use Rattle.marks.specs.Bits.{two_at_lem, Blank};
ghost use Rattle.bits.specs.Children.{Childed, Shapely};

use trees::{Refusal, Tree, judge_each};

// ---- is anything wrong?

// How many children each node has, into a table of zeros, as long as none has a third.
fn count_pairs(parents: &[u16], counts: &mut [u16; 512]) -> bool
    requires { (length parents.now ≤ 2047) × Blank counts.old }
    ensures { T result → Childed parents.now (length parents.now) counts.new }
{
    let n = parents.len();
    for &parent in parents {
        let u = parent as usize;
        if u < n && !marks::add_one(counts, u) {
            return false;
        }
    }
    true
}

// Has every node no child and a taxon, or two children and none?
fn all_like(counts: &[u16; 512], taxa: &[u32]) -> bool
    requires { length taxa.now ≤ 2047 }
    ensures { T result → (k : ℕ) → k < length taxa.now → two_at_lem counts.now k ≡ wanted_count (taxon taxa.now k) }
{
    for (i, &taxon) in taxa.iter().enumerate() {
        if marks::two_at(counts, i) != shapes::wanted(taxon) {
            return false;
        }
    }
    true
}

// Is it certain that rules 3 and 4 hold?
fn surely_shaped(tables: &Tree<'_>, counts: &mut [u16; 512]) -> bool
    requires { T (sized tables.now.parents.now tables.now.taxa.now) }
    ensures { T result → Shapely tables.now.parents.now tables.now.taxa.now }
{
    marks::blank(counts);
    count_pairs(tables.parents, counts) && all_like(counts, tables.taxa)
}

// ---- where?

// How many children a node has, by a scan.
fn children_of(parents: &[u16], node: usize) -> usize
    ensures { result ≡ length (kids parents.now node) }
{
    let mut count: usize = 0;
    for &parent in parents {
        count += usize::from(usize::from(parent) == node);
    }
    count
}

// Rule 3 at one node.
fn paired_at(parents: &[u16], node: usize) -> bool
    ensures { result ≡ paired parents.now node }
{
    shapes::paired(children_of(parents, node))
}

// Rule 3: refused at the lowest node that has neither no child nor two.
fn judge_paired(tree: u16, parents: &[u16]) -> Result<(), Refusal>
    ensures { judged_of result ≡ verdict (each 3 tree (length parents.now) (paired parents.now) ∷ []) }
{
    judge_each(3, tree, parents.len(), |i| paired_at(parents, i))
}

// Rule 4 at one node.
fn marked_at(parents: &[u16], taxa: &[u32], node: usize) -> bool
    requires { node < length taxa.now }
    ensures { result ≡ marked parents.now taxa.now node }
{
    shapes::marked(children_of(parents, node), taxa[node])
}

// Rule 4: refused at the lowest node that is a leaf with taxon 0 or an inner node with another.
fn judge_marked(tree: u16, parents: &[u16], taxa: &[u32]) -> Result<(), Refusal>
    requires { length taxa.now ≡ length parents.now }
    ensures { judged_of result ≡ verdict (each 4 tree (length parents.now) (marked parents.now taxa.now) ∷ []) }
{
    judge_each(4, tree, parents.len(), |i| marked_at(parents, taxa, i))
}

// ---- all of them

// Rules 3 and 4 of the tree with that number, on two tables that rule 1 has passed.
fn judge_children(tree: u16, tables: &Tree<'_>, counts: &mut [u16; 512]) -> Result<(), Refusal>
    requires { T (sized tables.now.parents.now tables.now.taxa.now) }
    ensures { judged_of result ≡ verdict (child_rules tree tables.now.parents.now tables.now.taxa.now) }
{
    if surely_shaped(tables, counts) {
        return Ok(());
    }
    judge_paired(tree, tables.parents)?;
    judge_marked(tree, tables.parents, tables.taxa)
}

// Rules 2, 38, 3 and 4 of the tree with that number, on two tables that rule 1 has passed.
pub fn judge_shape(tree: u16, tables: &Tree<'_>, counts: &mut [u16; 512]) -> Result<(), Refusal>
    requires { T (sized tables.now.parents.now tables.now.taxa.now) }
    ensures { JudgeShapeMeets tree tables.now.parents.now tables.now.taxa.now result }
{
    reaches::judge_roots(tree, tables.parents, counts)?;
    judge_children(tree, tables, counts)
}
