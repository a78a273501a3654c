// Writing an image: a family into a lent buffer.
#![tactic(auto)]

mod put;

ghost use Rattle.trees.specs.Tables.{pair_of};
ghost use Rattle.writing.specs.Promises.{WriteImageMeets};

use trees::{Refusal, Trees, refuse};

// The image of two trees and a history, of which the first q places and labels count, into the first bytes of a lent buffer; answers
// how many. Refusals: the trees' own, then 7, then 8 to 11, then 12 for the buffer; they leave it as it was.
pub fn write_image(
    trees: &Trees<'_>,
    places: &[u16],
    labels: &[u16],
    image: &mut [u8],
) -> Result<usize, Refusal>
    ensures { WriteImageMeets (pair_of trees.now) places.now labels.now image.old result image.new }
{
    offers::judge_offer(trees, places, labels)?;
    let q = trees.genes.parents.len();
    let n = put::image_size(trees.species.parents.len(), q);
    if image.len() < n {
        return Err(refuse(12, 0, 0));
    }
    put::put_family(trees, &places[..q], &labels[..q], &mut image[..n]);
    Ok(n)
}
