// Rules 2, 38, 3 and 4: one root that every node reaches, the number of children, and which nodes carry a taxon. The tables may be of
// either tree: indices are those of the table handed in, and a refusal names its tree.
//
// Most trees are sound. So a first pass finds out whether anything is wrong, and not where: it has no branches, and the compiler makes
// eight nodes a step of it. Only where something is wrong a second pass looks for the lowest node.
#![tactic(auto)]

ghost use Rattle.std.specs.Prelude.{◌≡◌, ℕ, ◌≤◌, ◌<◌, length, get_or, T};
ghost use Rattle.trees.specs.Rulings.{verdict};
ghost use Rattle.trees.specs.Rules.{sized, child_rules};
ghost use Rattle.trees.specs.Answers.{judged_of};
ghost use Rattle.shapes.specs.Counts.{paired_count, marked_count, wanted_count, ChildCounts, Zeros};
ghost use Rattle.shapes.specs.Promises.{WantedMeets, PairedMeets, MarkedMeets, JudgeShapeMeets};

use trees::{Refusal, Tree, judge_each};

// ---- the children of each node

// How many children each node has, into a table of zeros.
fn count_children(parents: &[u16], counts: &mut [u16])
    requires { (length parents.now ≤ 2047) × Zeros parents.now counts.old }
    ensures { ChildCounts parents.now counts.new }
{
    let n = parents.len();
    for &parent in parents {
        let u = usize::from(parent);
        if u < n {
            counts[u] += 1;
        }
    }
}

// ---- rules 3 and 4

// How many children a node with this taxon has in a sound tree.
#[tactic(auto, unfolding(crate::specs::Counts::wanted_count, trees::specs::Lists::pick))]
pub fn wanted(taxon: u32) -> u16
    ensures { WantedMeets taxon result }
{
    if taxon == 0 { 2 } else { 0 }
}

// Has every node no child and a taxon, or two children and none?
fn all_shaped(counts: &[u16], taxa: &[u32]) -> bool
    requires { (length taxa.now ≤ length counts.now) × (length taxa.now ≤ 2047) }
    ensures { T result → (k : ℕ) → k < length taxa.now → get_or counts.now k 0 ≡ wanted_count (get_or taxa.now k 0) }
{
    let mut wrong: u16 = 0;
    for (i, &taxon) in taxa.iter().enumerate() {
        wrong += u16::from(counts[i] != wanted(taxon));
    }
    wrong == 0
}

// Rule 3 at a node with so many children.
#[tactic(auto, unfolding(crate::specs::Counts::is_paired))]
pub fn paired(count: usize) -> bool
    ensures { PairedMeets count result }
{
    count == 0 || count == 2
}

// Rule 3 at one node.
#[tactic(auto, unfolding(crate::specs::Counts::paired_count))]
fn paired_at(counts: &[u16], node: usize) -> bool
    requires { node < length counts.now }
    ensures { result ≡ paired_count counts.now node }
{
    paired(usize::from(counts[node]))
}

// Rule 4 at a node with so many children and this taxon.
#[tactic(auto, unfolding(crate::specs::Counts::is_marked, trees::specs::Lists::pick))]
pub fn marked(count: usize, taxon: u32) -> bool
    ensures { MarkedMeets count taxon result }
{
    if count == 0 { taxon != 0 } else { taxon == 0 }
}

// Rule 4 at one node.
#[tactic(auto, unfolding(crate::specs::Counts::marked_count))]
fn marked_at(counts: &[u16], taxa: &[u32], node: usize) -> bool
    requires { (node < length counts.now) × (node < length taxa.now) }
    ensures { result ≡ marked_count counts.now taxa.now node }
{
    marked(usize::from(counts[node]), taxa[node])
}

// Rules 3 and 4 of a tree whose children are counted.
fn judge_counts(tree: u16, tables: &Tree<'_>, counts: &[u16]) -> Result<(), Refusal>
    requires { T (sized tables.now.parents.now tables.now.taxa.now) × ChildCounts tables.now.parents.now counts.now }
    ensures { judged_of result ≡ verdict (child_rules tree tables.now.parents.now tables.now.taxa.now) }
{
    let taxa = tables.taxa;
    if all_shaped(counts, taxa) {
        return Ok(());
    }
    let n = tables.parents.len();
    judge_each(3, tree, n, |i| paired_at(counts, i))?;
    judge_each(4, tree, n, |i| marked_at(counts, taxa, i))
}

// Rules 3 and 4 of a tree of at most N nodes: 2 N bytes of stack.
fn judge_in<const N: usize>(tree: u16, tables: &Tree<'_>) -> Result<(), Refusal>
    requires { T (sized tables.now.parents.now tables.now.taxa.now) × (length tables.now.parents.now ≤ N) × (N ≤ 2047) }
    ensures { judged_of result ≡ verdict (child_rules tree tables.now.parents.now tables.now.taxa.now) }
{
    let mut counts = [0u16; N];
    count_children(tables.parents, &mut counts);
    judge_counts(tree, tables, &counts)
}

// Rules 2, 38, 3 and 4 of the tree with that number, on two tables that rule 1 has passed.
pub fn judge_shape(tree: u16, tables: &Tree<'_>) -> Result<(), Refusal>
    requires { T (sized tables.now.parents.now tables.now.taxa.now) }
    ensures { JudgeShapeMeets tree tables.now.parents.now tables.now.taxa.now result }
{
    let parents = tables.parents;
    orders::judge_roots(tree, parents)?;
    if parents.len() <= 255 {
        return judge_in::<255>(tree, tables);
    }
    judge_in::<2047>(tree, tables)
}
