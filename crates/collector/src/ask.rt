// One question of the collector's: an image against two tables that come as bytes.
ghost use Rattle.std.specs.Prelude.{◌≡◌, ◌*◌, length};
ghost use Rattle.families.specs.Loading.{load};
ghost use Rattle.loading.specs.Answers.{loaded_of};
ghost use Rattle.collector.specs.Host.{fits, rack_parents, rack_taxa, scratch, host_ruling};

use loading::Stored;
use trees::{Refusal, Tree, refuse};
use words::piece;

// The image on a rack with these tables. The four tables it is loaded into stand on the stack, 20,470 bytes.
fn on_rack(image: &[u8], species: &Tree<'_>) -> Result<Stored, Refusal>
    ensures { loaded_of result ≡ (load species.now.parents.now species.now.taxa.now image.now scratch).answer }
{
    let mut gene_parents = [0u16; 2047];
    let mut gene_taxa = [0u32; 2047];
    let mut places = [0u16; 2047];
    let mut labels = [0u16; 2047];
    loading::load_image(
        species,
        image,
        &mut gene_parents,
        &mut gene_taxa,
        &mut places,
        &mut labels,
    )
}

// The same with the tables as bytes, decoded into two tables of the right length.
fn on_bytes(
    image: &[u8],
    parents: &[u8],
    taxa: &[u8],
    species_parents: &mut [u16],
    species_taxa: &mut [u32],
) -> Result<Stored, Refusal>
    requires { (length parents.now ≡ 2 * length species_parents.old) × (length taxa.now ≡ 4 * length species_taxa.old) }
    ensures { loaded_of result ≡ (load (rack_parents parents.now) (rack_taxa taxa.now) image.now scratch).answer }
{
    piece::copy(parents, species_parents);
    piece::copy(taxa, species_taxa);
    let species = Tree {
        parents: species_parents,
        taxa: species_taxa,
    };
    on_rack(image, &species)
}

// Lengths that do not make two equal tables, or tables with more entries than a tree may have.
pub(crate) fn no_tables() -> Refusal
    ensures { result ≡ record { number = 1; tree = 1; place = 0 } }
{
    refuse(1, 1, 0)
}

// Do the lengths make two equal tables?
#[tactic(auto, unfolding(crate::specs::Host::fits))]
pub(crate) fn fitting(parents: &[u8], taxa: &[u8]) -> bool
    ensures { result ≡ fits parents.now taxa.now }
{
    if parents.len() % 2 != 0 {
        return false;
    }
    if taxa.len() % 4 != 0 {
        return false;
    }
    parents.len() / 2 == taxa.len() / 4
}

// What loading the image on the rack answers. The rack's tables stand on the stack, 12,282 bytes.
pub(crate) fn ask(image: &[u8], parents: &[u8], taxa: &[u8]) -> Result<Stored, Refusal>
    ensures { loaded_of result ≡ host_ruling image.now parents.now taxa.now }
{
    if !fitting(parents, taxa) {
        return Err(no_tables());
    }
    let n = parents.len() / 2;
    if 2047 < n {
        return Err(no_tables());
    }
    let mut species_parents = [0u16; 2047];
    let mut species_taxa = [0u32; 2047];
    on_bytes(
        image,
        parents,
        taxa,
        &mut species_parents[..n],
        &mut species_taxa[..n],
    )
}
