// The least history of a gene tree on a species tree, and its cost.
#![tactic(auto)]

ghost use Rattle.trees.specs.Tables.{pair_of};
ghost use Rattle.least.specs.Promises.{CostMeets, LeastHistoryMeets};

use trees::{Refusal, Trees, refuse};

// What the least history counts.
#[derive(Clone, Copy)]
pub struct LeastCounts {
    pub duplications: u32,
    pub losses: u32,
    pub speciations: u32,
    pub climbs: u32,
    pub cost: u64,
}

// dw for each duplication and lw for each loss.
pub fn cost(dw: u16, lw: u16, duplications: u32, losses: u32) -> u64
    ensures { CostMeets dw lw duplications losses result }
{
    (dw as u64) * (duplications as u64) + (lw as u64) * (losses as u64)
}

// The least history of a gene tree on a species tree: places and labels into the first q entries of the two lent tables, and
// what it counts, with the cost at weights dw and lw. Refusals: the trees' own, then 7. A refusal leaves both tables as they
// were; success changes nothing behind the first q entries.
pub fn least_history(
    trees: &Trees<'_>,
    places: &mut [u16],
    labels: &mut [u16],
    dw: u16,
    lw: u16,
) -> Result<LeastCounts, Refusal>
    ensures { LeastHistoryMeets (pair_of trees.now) places.old labels.old dw lw result places.new labels.new }
{
    judges::judge_pair(trees)?;
    let q = trees.genes.parents.len();
    if places.len() < q {
        return Err(refuse(7, 0, 0));
    }
    if labels.len() < q {
        return Err(refuse(7, 0, 0));
    }
    fills::fill(trees, places, labels);
    let t = climbs::count_climbs(trees, places, labels);
    Ok(LeastCounts {
        duplications: t.duplications,
        losses: t.losses,
        speciations: t.speciations,
        climbs: t.climbs,
        cost: cost(dw, lw, t.duplications, t.losses),
    })
}
