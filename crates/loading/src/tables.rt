// The four lent tables of a load: filled from an image, or cleared.
ghost use Rattle.std.specs.Prelude.{◌≡◌};
ghost use Rattle.loading.specs.Conditions.{GenesRoom};
ghost use Rattle.loading.specs.Outcomes.{lent, cleared_all};
ghost use Rattle.loading.specs.Promises.{ReadGenesMeets};

use words::read;

// The gene tables and the history that stand from word i on, into all of the four tables.
pub fn read_genes(
    image: &[u8],
    i: usize,
    gene_parents: &mut [u16],
    gene_taxa: &mut [u32],
    places: &mut [u16],
    labels: &mut [u16],
)
    requires { GenesRoom image.now i (lent gene_parents.old gene_taxa.old places.old labels.old) }
    ensures { ReadGenesMeets image.now i gene_parents.old gene_taxa.old places.old labels.old gene_parents.new gene_taxa.new places.new labels.new }
{
    let q = gene_parents.len();
    read::read(image, i, gene_parents);
    read::read(image, i + q, gene_taxa);
    read::read(image, i + 3 * q, places);
    read::read(image, i + 4 * q, labels);
}

// Zero into all of the four tables.
pub(crate) fn clear_genes(
    gene_parents: &mut [u16],
    gene_taxa: &mut [u32],
    places: &mut [u16],
    labels: &mut [u16],
)
    ensures { lent gene_parents.new gene_taxa.new places.new labels.new ≡ cleared_all (lent gene_parents.old gene_taxa.old places.old labels.old) }
{
    gene_parents.fill(0);
    gene_taxa.fill(0);
    places.fill(0);
    labels.fill(0);
}
