// The tables that requests are made of. Each is read into room on the stack, since a program has no other memory, and then handed on.
use std::num::TryFromIntError;
use talks::{Memory, Talk};
use trees::{Tree, Trees};

// The most entries of a table.
const ROOM: usize = 2100;

// Reads two tables into the room for them, and goes on with what was read.
pub(crate) fn with_tables<'a, A, B, F>(
    memory: &mut Memory,
    talk: Talk,
    first: &'a mut [A],
    second: &'a mut [B],
    then: F,
) -> Talk
where
    A: Copy + TryFrom<u64, Error = TryFromIntError>,
    B: Copy + TryFrom<u64, Error = TryFromIntError>,
    F: FnOnce(&mut Memory, Talk, &'a mut [A], &'a mut [B]) -> Talk,
    requires { F.IsAlwaysCallable then }
{
    let tables = dialogue::read_tables(memory, talk, first, second);
    then(
        memory,
        tables.talk,
        &mut first[..tables.first],
        &mut second[..tables.second],
    )
}

// A tree's parents and taxa.
pub(crate) fn with_taxa<F>(memory: &mut Memory, talk: Talk, then: F) -> Talk
where
    F: FnOnce(&mut Memory, Talk, &mut [u16], &mut [u32]) -> Talk,
    requires { F.IsAlwaysCallable then }
{
    with_tables(memory, talk, &mut [0u16; ROOM], &mut [0u32; ROOM], then)
}

// The same, where they are only read.
pub(crate) fn with_tree<F>(memory: &mut Memory, talk: Talk, then: F) -> Talk
where
    F: FnOnce(&mut Memory, Talk, &Tree<'_>) -> Talk,
    requires { F.IsAlwaysCallable then }
{
    with_taxa(
        memory,
        talk,
        |memory, talk, parents, taxa| then(memory, talk, &Tree { parents, taxa }),
    )
}

// The tables of a gene tree behind those of a species tree.
pub(crate) fn with_trees<F>(memory: &mut Memory, talk: Talk, then: F) -> Talk
where
    F: FnOnce(&mut Memory, Talk, &Trees<'_>) -> Talk,
    requires { F.IsAlwaysCallable then }
{
    with_tree(memory, talk, |memory, talk, species| {
        with_tree(memory, talk, |memory, talk, genes| {
            then(
                memory,
                talk,
                &Trees {
                    species: *species,
                    genes: *genes,
                },
            )
        })
    })
}

// A history's places and labels.
pub(crate) fn with_labels<F>(memory: &mut Memory, talk: Talk, then: F) -> Talk
where
    F: FnOnce(&mut Memory, Talk, &mut [u16], &mut [u16]) -> Talk,
    requires { F.IsAlwaysCallable then }
{
    with_tables(memory, talk, &mut [0u16; ROOM], &mut [0u16; ROOM], then)
}

// The tables of a history behind those of its trees.
pub(crate) fn with_history<F>(memory: &mut Memory, talk: Talk, then: F) -> Talk
where
    F: FnOnce(&mut Memory, Talk, &Trees<'_>, &mut [u16], &mut [u16]) -> Talk,
    requires { F.IsAlwaysCallable then }
{
    with_trees(memory, talk, |memory, talk, trees| {
        with_labels(memory, talk, |memory, talk, places, labels| {
            then(memory, talk, trees, places, labels)
        })
    })
}

// An image, or the room for one.
pub(crate) fn with_image<F>(memory: &mut Memory, talk: Talk, then: F) -> Talk
where
    F: FnOnce(&mut Memory, Talk, &mut [u8]) -> Talk,
    requires { F.IsAlwaysCallable then }
{
    let mut image = [0u8; 37888];
    let table = dialogue::read_table(memory, talk, &mut image);
    then(memory, table.talk, &mut image[..table.count])
}
