// The two countings, the tables that are handed in, the refusal, the judging of a rule that is a test of each node, and the slot where
// the search for a taxon begins.
#![tactic(auto)]

ghost use Rattle.std.specs.Prelude.{ℕ, ◌<◌};
ghost use Rattle.trees.specs.Promises.{RefuseMeets, JudgeEachMeets, SlotOfMeets};

// A node of the species tree, by its number.
#[derive(Clone, Copy, PartialEq, Eq)]
pub struct SpeciesNode(pub usize);

// A node of the gene tree, by its number.
#[derive(Clone, Copy, PartialEq, Eq)]
pub struct GeneNode(pub usize);

// The two tables of a tree as they are handed in, with an entry for each node: its parent, and its taxon.
#[derive(Clone, Copy)]
pub struct Tree<'a> {
    pub parents: &'a [u16],
    pub taxa: &'a [u32],
}

// The tables of a gene tree and of the species tree that it is on.
#[derive(Clone, Copy)]
pub struct Trees<'a> {
    pub species: Tree<'a>,
    pub genes: Tree<'a>,
}

// Why a call refuses: the number of 01's table, the tree (0 none, 1 species, 2 gene) and the place, which is a node of that
// tree, a block of an image or a byte of a text, or 0. A judge answers `Ok(())`, or `Err` with the first refusal.
#[derive(Clone, Copy, PartialEq, Eq)]
pub struct Refusal {
    pub number: u16,
    pub tree: u16,
    pub place: usize,
}

// The refusal with that number, tree and place.
pub fn refuse(number: u16, tree: u16, place: usize) -> Refusal
    ensures { RefuseMeets number tree place result }
{
    Refusal {
        number,
        tree,
        place,
    }
}

// A rule that is a test of each of n nodes: refused at the lowest that fails it.
pub fn judge_each<F: Fn(usize) -> bool>(
    number: u16,
    tree: u16,
    n: usize,
    test: F,
) -> Result<(), Refusal>
    requires { (i : ℕ) → i < n → F.pre test i }
    ensures { JudgeEachMeets number tree n (F.post test) result }
{
    for i in 0..n {
        if !test(i) {
            return Err(refuse(number, tree, i));
        }
    }
    Ok(())
}

// The slot of a taxon among so many: the high bits of its product with an odd constant, so that taxa which share their low bits are
// spread too.
#[tactic(auto, unfolding(crate::specs::Slots::slot_in))]
pub fn slot_of(taxon: u32, slots: u32) -> usize
    ensures { SlotOfMeets taxon slots result }
{
    (u64::from(taxon.wrapping_mul(2654435761)) * u64::from(slots) / 4294967296) as usize
}
