// The refusal of an image against two tables that come as bytes. The rack's tables stand on the stack of the call, short ones where
// they will do.
ghost use Rattle.std.specs.Prelude.{◌≡◌, ◌*◌, ◌≤◌, length};
ghost use Rattle.trees.specs.Rulings.{verdict};
ghost use Rattle.trees.specs.Answers.{judged_of};
ghost use Rattle.judging.specs.Judging.{image_rules, plain};
ghost use Rattle.collector.specs.Host.{rack_parents, rack_taxa, host_ruling, Halved};

use crate::ask;
use trees::{Refusal, Tree};
use words::piece;

// The image on a rack whose tables are decoded into two tables of the right length.
fn judge_bytes(
    image: &[u8],
    parents: &[u8],
    taxa: &[u8],
    species_parents: &mut [u16],
    species_taxa: &mut [u32],
) -> Result<(), Refusal>
    requires { (length parents.now ≡ 2 * length species_parents.old) × (length taxa.now ≡ 4 * length species_taxa.old) }
    ensures { judged_of result ≡ verdict (image_rules (rack_parents parents.now) (rack_taxa taxa.now) image.now) }
{
    piece::copy(parents, species_parents);
    piece::copy(taxa, species_taxa);
    let species = Tree {
        parents: species_parents,
        taxa: species_taxa,
    };
    judging::judge_image(&species, image)
}

// The image on a rack with n nodes, at most N: 6 bytes of stack for each of the N.
fn judge_in<const N: usize>(
    image: &[u8],
    parents: &[u8],
    taxa: &[u8],
    n: usize,
) -> Result<(), Refusal>
    requires { Halved parents.now taxa.now n × (n ≤ N) × (N ≤ 2047) }
    ensures { judged_of result ≡ verdict (image_rules (rack_parents parents.now) (rack_taxa taxa.now) image.now) }
{
    let mut species_parents = [0u16; N];
    let mut species_taxa = [0u32; N];
    judge_bytes(
        image,
        parents,
        taxa,
        &mut species_parents[..n],
        &mut species_taxa[..n],
    )
}

// What the image is refused by on the rack, if anything.
pub(crate) fn refusal(image: &[u8], parents: &[u8], taxa: &[u8]) -> Result<(), Refusal>
    ensures { judged_of result ≡ plain (host_ruling image.now parents.now taxa.now) }
{
    if !ask::fitting(parents, taxa) {
        return Err(ask::no_tables());
    }
    let n = parents.len() / 2;
    if 2047 < n {
        return Err(ask::no_tables());
    }
    if n <= 255 {
        return judge_in::<255>(image, parents, taxa, n);
    }
    judge_in::<2047>(image, parents, taxa, n)
}
