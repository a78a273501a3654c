// The least history for a rack's C program: a number, and places, labels and counts into three tables that are lent. The crate
// collector hands the calls to C.
#![tactic(auto)]

ghost use Rattle.std.specs.Prelude.{◌≡◌, ◌≤◌, length};
ghost use Rattle.trees.specs.Tables.{pair_of};
ghost use Rattle.trees.specs.Lent.{replaced};
ghost use Rattle.rack.specs.Rack.{four_of};
ghost use Rattle.rack.specs.Promises.{Short, HistoryMeets, HistoryTreeMeets, HistoryPlaceMeets};

use least::LeastCounts;
use trees::Trees;

// The number of the refusal where the table of counts is too short: the trees' own, or 7.
fn short_of_counts(trees: &Trees<'_>) -> u32
    ensures { Short (pair_of trees.now) result }
{
    match judges::judge_pair(trees) {
        Ok(()) => 7,
        Err(r) => u32::from(r.number),
    }
}

// Duplications, losses, speciations and climbs, into the first four entries.
fn put_counts(counts: &mut [u64], c: LeastCounts)
    requires { 4 ≤ length counts.old }
    ensures { counts.new ≡ replaced (four_of c.duplications c.losses c.speciations c.climbs) counts.old }
{
    counts[0] = u64::from(c.duplications);
    counts[1] = u64::from(c.losses);
    counts[2] = u64::from(c.speciations);
    counts[3] = u64::from(c.climbs);
}

// The number of the refusal, and then all three lent tables are as they were; or 0, with the least history's places and labels and
// its four counts.
pub fn history(trees: &Trees<'_>, places: &mut [u16], labels: &mut [u16], counts: &mut [u64]) -> u32
    ensures { HistoryMeets (pair_of trees.now) places.old labels.old counts.old result places.new labels.new counts.new }
{
    if counts.len() < 4 {
        return short_of_counts(trees);
    }
    match least::least_history(trees, places, labels, 0, 0) {
        Ok(c) => {
            put_counts(counts, c);
            0
        }
        Err(r) => u32::from(r.number),
    }
}

// The tree of the same refusal (1 species, 2 gene), or 0.
pub fn history_tree(trees: &Trees<'_>) -> u32
    ensures { HistoryTreeMeets (pair_of trees.now) result }
{
    match judges::judge_pair(trees) {
        Ok(()) => 0,
        Err(r) => u32::from(r.tree),
    }
}

// The place of the same refusal: a node of that tree, or 0.
pub fn history_place(trees: &Trees<'_>) -> u32
    ensures { HistoryPlaceMeets (pair_of trees.now) result }
{
    match judges::judge_pair(trees) {
        Ok(()) => 0,
        Err(r) => r.place as u32,
    }
}
