// Rule 2: one root, and every other parent under n. The tables may be of either tree: indices are those of the table handed in, and a
// refusal names its tree.
//
// Most tables have parents first. So a first pass finds out whether this one has: it has no branches, and the compiler makes eight
// nodes a step of it. Where it has, rules 2 and 38 hold, and quick ways may go by the numbers.
#![tactic(auto)]

ghost use Rattle.std.specs.Prelude.{◌≡◌, not, ◌&&◌, ◌||◌, ◌≤◌, length, eqb, ltb};
ghost use Rattle.roots.specs.Promises.{InOrderMeets, JudgeParentsMeets};

use trees::{Refusal, refuse};

// Has the table parents first?
pub fn in_order(parents: &[u16]) -> bool
    requires { (1 ≤ length parents.now) × (length parents.now ≤ 2047) }
    ensures { InOrderMeets parents.now result }
{
    if parents[0] != 65535 {
        return false;
    }
    let mut wrong: u16 = 0;
    for i in 1..parents.len() {
        wrong = passes::noted(wrong, parents[i] < (i as u16));
    }
    wrong == 0
}

// Rule 2 at one node of n with this parent; `seen`: there is a root at a lower number.
fn parented_at(n: usize, parent: u16, seen: bool) -> bool
    ensures { result ≡ (ltb parent n || (eqb parent 65535 && not seen)) }
{
    usize::from(parent) < n || (parent == 65535 && !seen)
}

// Is there a root, now that this parent has been looked at too?
fn or_root(parent: u16, seen: bool) -> bool
    ensures { result ≡ (seen || eqb parent 65535) }
{
    seen || parent == 65535
}

// Rule 2: refused at the lowest node whose parent is not under n or that is a second root, else at 65,535 if there is no root.
pub fn judge_parents(tree: u16, parents: &[u16]) -> Result<(), Refusal>
    requires { length parents.now ≤ 2047 }
    ensures { JudgeParentsMeets tree parents.now result }
{
    let n = parents.len();
    let mut seen = false;
    for i in 0..n {
        let parent = parents[i];
        if !parented_at(n, parent, seen) {
            return Err(refuse(2, tree, i));
        }
        seen = or_root(parent, seen);
    }
    if seen {
        return Ok(());
    }
    Err(refuse(2, tree, 65535))
}
