// The pairs of tables that requests are made of, in the memory that a request has for them: a tree's two tables, a history's two, and
// the two byte tables of a C call.
ghost use Rattle.dialogue.specs.Counts.{IsCount};
ghost use Rattle.dialogue.specs.Spoiled.{EmptiesRead};

use crate::input::read_table;
use std::num::TryFromIntError;
use talks::{Memory, Talk};

// How many entries each of two tables has, at its start.
#[derive(Clone, Copy)]
pub struct Tables {
    pub first: usize,
    pub second: usize,
    pub talk: Talk,
}

// Two tables, one after the other.
pub fn read_tables<A, B>(
    memory: &mut Memory,
    talk: Talk,
    first: &mut [A],
    second: &mut [B],
) -> Tables
where
    A: Copy + TryFrom<u64, Error = TryFromIntError>,
    B: Copy + TryFrom<u64, Error = TryFromIntError>,
    ensures prefix_len { IsCount result.first first.new }
    ensures prefix_len_2 { IsCount result.second second.new }
    ensures spoiled { EmptiesRead talk result }
{
    let a = read_table(memory, talk, first);
    let b = read_table(memory, a.talk, second);
    Tables {
        first: a.count,
        second: b.count,
        talk: b.talk,
    }
}
