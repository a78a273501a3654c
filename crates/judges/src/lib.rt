// The judges: are these two tables a species tree; are these two a gene tree on it?
//
// Each answers `Ok`, or the first refusal of 01's order: species 1 to 5, gene 1, 2, 3, 4, 6, with 38 after 2 in both, each number over
// the whole table before the next. Nothing is asked of a caller of `judge_species`, `judge_pair` and `judge_rack`, and nothing is lent.
//
// There are two ways to one answer. `judge_species` and `judge_pair`, which the rack calls, need one table of a kilobyte, lent to each
// rule in turn: child counts in two bits a node, and taxa looked up by rounds of hints. `judge_rack` and `judge_family` serve the
// images, where a large stack is there anyway: their tables of child counts and of chains take 8 kilobytes and fewer steps.
#![tactic(auto)]

ghost use Rattle.std.specs.Prelude.{◌≡◌, length, T};
ghost use Rattle.trees.specs.Sound.{SoundSpecies};
ghost use Rattle.trees.specs.Tables.{pair_of};
ghost use Rattle.trees.specs.Rules.{sized};
ghost use Rattle.taxa.specs.Chains.{AllKnown};
ghost use Rattle.judges.specs.Promises.{JudgeSpeciesMeets, JudgeFamilyMeets, JudgePairMeets};

use trees::{Refusal, Tree, Trees, refuse};

// Rule 1: neither table is empty or over 2,047, and the two agree in length.
#[tactic(auto, unfolding(trees::specs::Rules::sized))]
fn sized_tables(tables: &Tree<'_>) -> bool
    ensures { result ≡ sized tables.now.parents.now tables.now.taxa.now }
{
    let n = tables.parents.len();
    1 <= n && n <= 2047 && tables.taxa.len() == n
}

// Species parents and taxa, with a lent table of 512 entries that may hold anything before and after: `Ok`, or the first of
// refusals 1, 2, 38, 3, 4 and 5.
#[tactic(auto, using(crate::proofs::Shapes::species_stopped))]
fn judge_species_in(species: &Tree<'_>, table: &mut [u16; 512]) -> Result<(), Refusal>
    ensures { JudgeSpeciesMeets species.now.parents.now species.now.taxa.now result }
{
    if !sized_tables(species) {
        return Err(refuse(1, 1, 0));
    }
    // the answer has a name, so that an edit which lets it through keeps the names that the proof goes by
    let shape = bits::judge_shape(1, species, table);
    shape?;
    rounds::judge_repeats(species.taxa, table)
}

// Species parents and taxa: `Ok`, or the first of refusals 1, 2, 38, 3, 4 and 5.
pub fn judge_species(species: &Tree<'_>) -> Result<(), Refusal>
    ensures { JudgeSpeciesMeets species.now.parents.now species.now.taxa.now result }
{
    let mut table = [0u16; 512];
    judge_species_in(species, &mut table)
}

// The same with large tables.
pub fn judge_rack(species: &Tree<'_>) -> Result<(), Refusal>
    ensures { JudgeSpeciesMeets species.now.parents.now species.now.taxa.now result }
{
    if !sized_tables(species) {
        return Err(refuse(1, 1, 0));
    }
    shapes::judge_shape(1, species)?;
    taxa::judge_repeats(species.taxa)
}

// Gene parents and taxa of a right size, on sound species tables, with a lent table: `Ok`, or the first of refusals 2, 38, 3, 4
// and 6.
fn judge_genes(trees: &Trees<'_>, table: &mut [u16; 512]) -> Result<(), Refusal>
    requires { SoundSpecies trees.now.species.parents.now trees.now.species.taxa.now × T (sized trees.now.genes.parents.now trees.now.genes.taxa.now) }
    ensures { JudgeFamilyMeets (pair_of trees.now) result }
{
    bits::judge_shape(2, &trees.genes, table)?;
    rounds::judge_known(trees.species.taxa, trees.genes.taxa, table)
}

// The same with large tables. A caller that has found each gene taxon among the species already says so by `known`, and 6 is not
// looked for again.
pub fn judge_family(trees: &Trees<'_>, known: bool) -> Result<(), Refusal>
    requires { SoundSpecies trees.now.species.parents.now trees.now.species.taxa.now × T (sized trees.now.genes.parents.now trees.now.genes.taxa.now) × (T known → AllKnown trees.now.species.taxa.now trees.now.genes.taxa.now) }
    ensures { JudgeFamilyMeets (pair_of trees.now) result }
{
    shapes::judge_shape(2, &trees.genes)?;
    if known {
        return Ok(());
    }
    taxa::judge_known(trees.species.taxa, trees.genes.taxa)
}

// Species tables, then gene tables on them, with a lent table of 512 entries that may hold anything before and after: `Ok`, or the
// first of species 1 to 5 and gene 1, 2, 3, 4, 6, with 38 after 2. For a caller that has a use for the table itself.
pub fn judge_pair_in(trees: &Trees<'_>, table: &mut [u16; 512]) -> Result<(), Refusal>
    ensures { JudgePairMeets (pair_of trees.now) result }
{
    judge_species_in(&trees.species, table)?;
    if !sized_tables(&trees.genes) {
        return Err(refuse(1, 2, 0));
    }
    judge_genes(trees, table)
}

// Species tables, then gene tables on them: `Ok`, or the first of species 1 to 5 and gene 1, 2, 3, 4, 6, with 38
// after 2.
pub fn judge_pair(trees: &Trees<'_>) -> Result<(), Refusal>
    ensures { JudgePairMeets (pair_of trees.now) result }
{
    let mut table = [0u16; 512];
    judge_pair_in(trees, &mut table)
}
