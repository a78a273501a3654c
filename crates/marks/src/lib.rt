// A table with two bits for each node, four nodes an entry: 512 entries for 2,047 nodes. The nodes may be of either tree.
#![tactic(auto)]

ghost use Rattle.std.specs.Prelude.{◌≡◌, ◌<◌};
ghost use Rattle.marks.specs.Bits.{two, more};
ghost use Rattle.marks.specs.Promises.{BlankMeets, TwoAtMeets, AddOneMeets};

// The two bits of an entry at place k.
#[tactic(auto, unfolding(crate::specs::Bits::two))]
fn two_of(entry: u16, k: usize) -> u16
    requires { k < 4 }
    ensures { result ≡ two entry k }
{
    let s = 2 * k;
    (entry >> s) % 4
}

// The entry with one more at place k.
fn more_of(entry: u16, k: usize) -> u16
    requires { (k < 4) × (two entry k < 2) }
    ensures { result ≡ more entry k }
{
    let s = 2 * k;
    entry + (1u16 << s)
}

// The table with zeros alone.
pub fn blank(table: &mut [u16; 512])
    ensures { BlankMeets table.new }
{
    table.fill(0);
}

// The two bits of a node.
#[tactic(auto, unfolding(crate::specs::Bits::two_at_lem))]
pub fn two_at(table: &[u16; 512], node: usize) -> u16
    requires { node < 2048 }
    ensures { TwoAtMeets table.now node result }
{
    let w = node / 4;
    two_of(table[w], node % 4)
}

// One more at a node that has at most one yet; at another nothing is done.
#[tactic(auto, unfolding(crate::specs::Bits::two_at_lem, trees::specs::Lists::pick))]
pub fn add_one(table: &mut [u16; 512], node: usize) -> bool
    requires { node < 2048 }
    ensures { AddOneMeets table.old node result table.new }
{
    let w = node / 4;
    let k = node % 4;
    let entry = table[w];
    if two_of(entry, k) < 2 {
        table[w] = more_of(entry, k);
        return true;
    }
    false
}
