// A talk over standard input and standard output, for the program `replay`: decimal numbers and tables of them are read, lines of numbers
// are written. One lent memory holds what was read and what is still to be written; a Talk says how far both are. Once something can't
// be read the talk is spoiled: from then on nothing is read, every number reads as 0 and every table as empty, and no line is put. So a
// caller reads all that it needs in a row and looks at the end whether all of it was there.
#![tactic(auto)]

ghost use Rattle.talks.specs.Promises.{BeginMeets, SpoilMeets, HoldingMeets};

// The first 65,536 bytes are what was read last, the other 4,096 what is to be written.
pub type Memory = [u8; 69632];

// The bytes from `at` up to `end` of the memory are still to be looked at, and `used` bytes behind the first 65,536 are still to be written. `more` is false once the talk is spoiled.
#[derive(Clone, Copy)]
pub struct Talk {
    pub at: usize,
    pub end: usize,
    pub used: usize,
    pub more: bool,
}

// Nothing read and nothing to be written.
pub fn begin() -> Talk
    ensures { BeginMeets result }
{
    Talk {
        at: 0,
        end: 0,
        used: 0,
        more: true,
    }
}

// The talk, spoiled.
pub fn spoil(talk: Talk) -> Talk
    ensures { SpoilMeets talk result }
{
    Talk {
        more: false,
        ..talk
    }
}

// The talk with `used` bytes to be written.
pub fn holding(talk: Talk, used: usize) -> Talk
    ensures { HoldingMeets talk used result }
{
    Talk { used, ..talk }
}
