// The judge of an offered history: is it legal, and what does it count?
#![tactic(auto)]

ghost use Rattle.std.specs.Prelude.{T};
ghost use Rattle.trees.specs.Tables.{pair_of};
ghost use Rattle.homes.specs.Homes.{Homed};
ghost use Rattle.fitting.specs.Promises.{Placed, JudgeHomesMeets};
ghost use Rattle.offers.specs.Answers.{Offerable};
ghost use Rattle.offers.specs.Promises.{JudgeRulesMeets, JudgeDescentMeets, JudgeOfferMeets};

use trees::{Refusal, Trees, refuse};

// What a legal history counts.
#[derive(Clone, Copy)]
pub struct HistoryCounts {
    pub duplications: u32,
    pub losses: u32,
    pub speciations: u32,
}

// Rule 9, where rule 8 holds; not tested if it is known that each leaf is at its species.
fn judge_leaves(
    species_taxa: &[u32],
    gene_taxa: &[u32],
    places: &[u16],
    homed: bool,
) -> Result<(), Refusal>
    requires { Placed species_taxa.now gene_taxa.now places.now × (T homed → Homed species_taxa.now gene_taxa.now places.now) }
    ensures { JudgeHomesMeets species_taxa.now gene_taxa.now places.now result }
{
    if homed {
        return Ok(());
    }
    fitting::judge_homes(species_taxa, gene_taxa, places)
}

// The rules of descent 8 to 11 on two sound trees, with tables that are long enough, and nothing counted. `homed`: it is known that
// each leaf is at its species, and rule 9 is not tested. A legal history is found so by quick tests; the tables of the quick test
// take at most 16,376 bytes of stack, that of the search 4,094.
#[tactic(auto, using(crate::proofs::Descents::stops_8, crate::proofs::Descents::stops_9))]
pub fn judge_rules(
    trees: &Trees<'_>,
    places: &[u16],
    labels: &[u16],
    homed: bool,
) -> Result<(), Refusal>
    requires { Offerable (pair_of trees.now) places.now labels.now × (T homed → Homed trees.now.species.taxa.now trees.now.genes.taxa.now places.now) }
    ensures { JudgeRulesMeets (pair_of trees.now) places.now labels.now homed result }
{
    let p = trees.species.parents.len();
    // the answers have names, so that an edit which lets them through keeps the names that the proof goes by
    let fit = fitting::judge_fitting(p, trees.genes.taxa, places, labels);
    fit?;
    let leaves = judge_leaves(trees.species.taxa, trees.genes.taxa, places, homed);
    leaves?;
    nesting::judge_nesting(trees.species.parents, trees.genes.parents, places, labels)
}

// The rules of descent 8 to 11 on two sound trees, with tables that are long enough; then what the history counts. The tables on
// the stack are those of the rules, and then that of the depths, 4,094 bytes.
pub fn judge_descent(
    trees: &Trees<'_>,
    places: &[u16],
    labels: &[u16],
) -> Result<HistoryCounts, Refusal>
    requires { Offerable (pair_of trees.now) places.now labels.now }
    ensures { JudgeDescentMeets (pair_of trees.now) places.now labels.now result }
{
    judge_rules(trees, places, labels, false)?;
    let t = counts::count_history(trees, places, labels);
    Ok(HistoryCounts {
        duplications: t.duplications,
        losses: t.losses,
        speciations: t.speciations,
    })
}

// A history that any program offers for two trees: its places and labels, of which the first q entries count. Refusals: the
// trees' own, then 7, then 8 to 11. A legal one is answered with what it counts.
pub fn judge_offer(
    trees: &Trees<'_>,
    places: &[u16],
    labels: &[u16],
) -> Result<HistoryCounts, Refusal>
    ensures { JudgeOfferMeets (pair_of trees.now) places.now labels.now result }
{
    judges::judge_pair(trees)?;
    let q = trees.genes.parents.len();
    if places.len() < q {
        return Err(refuse(7, 0, 0));
    }
    if labels.len() < q {
        return Err(refuse(7, 0, 0));
    }
    judge_descent(trees, places, labels)
}
