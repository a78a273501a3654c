// Opening an image on a rack: the rack's species 1 to 5, then 13 to 18. Nothing is lent.
#![tactic(auto)]

ghost use Rattle.std.specs.Prelude.{◌≡◌};
ghost use Rattle.trees.specs.Rulings.{ruling};
ghost use Rattle.blocks.specs.Blocks.{count, content};
ghost use Rattle.families.specs.Families.{gene_count};
ghost use Rattle.families.specs.Loading.{in_size_lem, framed, content_rules};
ghost use Rattle.opening.specs.Answers.{opened_of};
ghost use Rattle.opening.specs.Conditions.{FewBlocks, Fitted};
ghost use Rattle.opening.specs.Promises.{OpenImageMeets};

use trees::{Refusal, Tree, refuse};
use words::read;

// Is k a number of nodes?
#[tactic(auto, unfolding(families::specs::Loading::in_size_lem))]
fn in_size(k: usize) -> bool
    ensures { result ≡ in_size_lem k }
{
    1 <= k && k <= 2047
}

// 17: the counts, the number of blocks and the filling.
fn is_framed(image: &[u8]) -> bool
    requires { FewBlocks image.now }
    ensures { result ≡ framed (count image.now) (content image.now) }
{
    let p = read::nth_word(image, 1) as usize;
    let q = read::nth_word(image, 2) as usize;
    if !in_size(p) {
        return false;
    }
    if !in_size(q) {
        return false;
    }
    let c = 3 + 3 * p + 5 * q;
    if image.len() / 512 != (c + 252) / 253 {
        return false;
    }
    read::blank_from(image, c)
}

// 16 to 18 of an image whose blocks are right.
#[tactic(auto, using(crate::proofs::Opening::refused_16))]
fn judge_content(species: &Tree<'_>, image: &[u8]) -> Result<usize, Refusal>
    requires { Fitted species.now.parents.now species.now.taxa.now image.now }
    ensures { opened_of result ≡ ruling (content_rules species.now.parents.now species.now.taxa.now image.now) (gene_count (content image.now)) }
{
    if read::nth_word(image, 0) != 1 {
        return Err(refuse(16, 0, 0));
    }
    if !is_framed(image) {
        return Err(refuse(17, 0, 0));
    }
    if usize::from(read::nth_word(image, 1)) != species.parents.len() {
        return Err(refuse(18, 1, 65535));
    }
    if let Some(v) = release::first_difference(image, 3, species) {
        return Err(refuse(18, 1, v.0));
    }
    Ok(usize::from(read::nth_word(image, 2)))
}

// The first of the rack's species 1 to 5 and of 13 to 18 that fails, or the number of gene nodes.
pub fn open_image(species: &Tree<'_>, image: &[u8]) -> Result<usize, Refusal>
    ensures { OpenImageMeets species.now.parents.now species.now.taxa.now image.now result }
{
    judges::judge_rack(species)?;
    blocks::judge::judge_blocks(image, 65)?;
    judge_content(species, image)
}
