// The image of a family put into bytes.
ghost use Rattle.std.specs.Prelude.{◌≡◌, ◌+◌, ◌*◌, ◌≤◌, ◌++◌};
ghost use Rattle.blocks.specs.Halves.{low_high_lem};
ghost use Rattle.blocks.specs.Image.{fewest};
ghost use Rattle.puts.specs.Puts.{puts};
ghost use Rattle.trees.specs.Tables.{pair_of};
ghost use Rattle.families.specs.Families.{word_count, tables_of};
ghost use Rattle.families.specs.Writing.{family_image};
ghost use Rattle.writing.specs.Conditions.{family_told, TreeRoom, StoryRoom, TablesRoom, ImageRoom};

use puts::{seal, table};
use trees::{Tree, Trees};

// How many bytes the image of p species nodes and q gene nodes has.
pub(crate) fn image_size(p: usize, q: usize) -> usize
    requires { (p ≤ 2047) × (q ≤ 2047) }
    ensures { result ≡ 512 * fewest (word_count p q) }
{
    512 * ((3 + 3 * p + 5 * q + 252) / 253)
}

// The two tables of a tree, from word i on.
fn put_tree(tree: &Tree<'_>, image: &mut [u8], i: usize)
    requires { TreeRoom tree.now.parents.now tree.now.taxa.now image.old i }
    ensures { image.new ≡ puts image.old i (tree.now.parents.now ++ low_high_lem tree.now.taxa.now) }
{
    table::put(image, i, tree.parents);
    table::put(image, i + tree.parents.len(), tree.taxa);
}

// The two tables of a history, from word i on.
fn put_story(places: &[u16], labels: &[u16], image: &mut [u8], i: usize)
    requires { StoryRoom places.now labels.now image.old i }
    ensures { image.new ≡ puts image.old i (places.now ++ labels.now) }
{
    table::put(image, i, places);
    table::put(image, i + places.len(), labels);
}

// The six tables of a family, from word i on.
fn put_tables(trees: &Trees<'_>, places: &[u16], labels: &[u16], image: &mut [u8], i: usize)
    requires { TablesRoom (family_told (pair_of trees.now) places.now labels.now) image.old i }
    ensures { image.new ≡ puts image.old i (tables_of (family_told (pair_of trees.now) places.now labels.now)) }
{
    let g = i + 3 * trees.species.parents.len();
    put_tree(&trees.species, image, i);
    put_tree(&trees.genes, image, g);
    put_story(places, labels, image, g + 3 * trees.genes.parents.len());
}

// The image of a family, into all of `image`.
pub(crate) fn put_family(trees: &Trees<'_>, places: &[u16], labels: &[u16], image: &mut [u8])
    requires { ImageRoom (family_told (pair_of trees.now) places.now labels.now) image.old }
    ensures { image.new ≡ family_image (family_told (pair_of trees.now) places.now labels.now) }
{
    let p = trees.species.parents.len();
    let q = trees.genes.parents.len();
    let header = [1u16, p as u16, q as u16];
    table::put(image, 0, &header);
    put_tables(trees, places, labels, image, 3);
    table::put_zeros(image, 3 + 3 * p + 5 * q);
    seal::seal_all(image);
}
