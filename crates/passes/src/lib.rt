// Passes over a table without branches: the compiler makes eight entries a step of them. They serve tables of either tree.
#![tactic(auto)]

ghost use Rattle.passes.specs.Promises.{NotedMeets, AllBelowMeets};

// What was noted so far, or 1 if this one is not right.
pub fn noted(wrong: u16, right: bool) -> u16
    ensures { NotedMeets wrong right result }
{
    if right { wrong } else { 1 }
}

// Are there q entries, and is each of them below the limit?
pub fn all_below(table: &[u16], q: usize, limit: u16) -> bool
    ensures { AllBelowMeets table.now q limit result }
{
    if table.len() < q {
        return false;
    }
    let wrong: u16 = table[..q]
        .iter()
        .fold(0, |wrong, &entry| noted(wrong, entry < limit));
    wrong == 0
}
