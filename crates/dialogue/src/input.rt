// What is read: decimal numbers, separated by spaces or line feeds, and tables, a table being its length and then its entries.
ghost use Rattle.std.specs.Prelude.{◌≤◌, ◌≡◌};
ghost use Rattle.dialogue.specs.Counts.{IsCount};
ghost use Rattle.dialogue.specs.Spoiled.{NoneRead, ZeroRead, EmptyRead};

use std::num::TryFromIntError;
use talks::{Memory, Talk, spoil};

// The number of standard input.
const STDIN_FILENO: i32 = 0;

// A number, or 0 where the talk is spoiled.
#[derive(Clone, Copy)]
pub struct Found {
    pub value: u64,
    pub talk: Talk,
}

// How many entries a table has.
#[derive(Clone, Copy)]
pub struct Table {
    pub count: usize,
    pub talk: Talk,
}

// The next byte, which stays the next one, if there is one.
#[derive(Clone, Copy)]
pub(crate) struct Seen {
    pub byte: Option<u8>,
    pub talk: Talk,
}

// Reads into the first part; the answer is how many bytes came.
fn fill(memory: &mut Memory) -> usize {
    io::read_full(STDIN_FILENO, &mut memory[..65536])
}

// The next byte; more is read where all has been looked at.
fn peek(memory: &mut Memory, talk: Talk) -> Seen {
    let at = talk.at;
    if at < talk.end && at < 65536 {
        return Seen {
            byte: Some(memory[at]),
            talk,
        };
    }
    let n = fill(memory);
    let byte = if n == 0 { None } else { Some(memory[0]) };
    let talk = Talk {
        at: 0,
        end: n,
        ..talk
    };
    Seen { byte, talk }
}

// Past the next byte.
fn past(talk: Talk) -> Talk {
    let at = talk.at;
    if at < talk.end {
        return Talk { at: at + 1, ..talk };
    }
    talk
}

fn blank(b: u8) -> bool {
    matches!(b, b' ' | b'\n')
}

// How far a number has been read: not to its digits, or in them, with what they spell so far; then it is whole, or only blanks were left,
// or it is none or is over 18,446,744,073,709,551,609.
#[derive(Clone, Copy)]
pub(crate) enum Scan {
    Before,
    Digits(u64),
    Whole(u64),
    Over,
    Wrong,
}

// With a byte more that is no blank.
fn with_digit(value: u64, b: u8) -> Scan {
    if b.is_ascii_digit() && value <= 1844674407370955160 {
        return Scan::Digits(10 * value + u64::from(b - b'0'));
    }
    Scan::Wrong
}

// With the next byte, or the end.
fn with_next(scan: Scan, next: Option<u8>) -> Scan {
    match (scan, next) {
        (Scan::Before, None) => Scan::Over,
        (Scan::Before, Some(b)) if blank(b) => Scan::Before,
        (Scan::Before, Some(b)) => with_digit(0, b),
        (Scan::Digits(value), Some(b)) if !blank(b) => with_digit(value, b),
        (Scan::Digits(value), _) => Scan::Whole(value),
        (done, _) => done,
    }
}

// Reads on until the number is done. A text has fewer bytes than the loop has turns.
fn scan_on(memory: &mut Memory, from: Talk) -> Option<Found> {
    let mut talk = from;
    let mut scan = Scan::Before;
    for _ in 0..1099511627776u64 {
        let seen = peek(memory, talk);
        scan = with_next(scan, seen.byte);
        talk = seen.talk;
        if !matches!(scan, Scan::Before | Scan::Digits(_)) {
            break;
        }
        talk = past(talk);
    }
    judge(scan, talk)
}

// What was found, or none if only blanks were left. What is no number spoils the talk.
fn judge(scan: Scan, talk: Talk) -> Option<Found> {
    match scan {
        Scan::Whole(value) => Some(Found { value, talk }),
        Scan::Over => None,
        _ => Some(spoiled(talk)),
    }
}

// A number that can't be read, and the talk spoiled by it.
fn spoiled(talk: Talk) -> Found
    ensures { result.value ≡ 0 }
{
    Found {
        value: 0,
        talk: spoil(talk),
    }
}

// The next number, or none if only blanks are left. Of a spoiled talk it is 0, and the talk is the same.
pub fn number_if_any(memory: &mut Memory, talk: Talk) -> Option<Found>
    ensures { NoneRead talk result }
{
    if talk.more {
        return scan_on(memory, talk);
    }
    Some(Found { value: 0, talk })
}

// The next number; the end spoils the talk.
pub fn number(memory: &mut Memory, talk: Talk) -> Found
    ensures { ZeroRead talk result }
{
    number_if_any(memory, talk).unwrap_or(spoiled(talk))
}

// A number of at most `most`; another one spoils the talk, as the end does.
pub fn small(memory: &mut Memory, talk: Talk, most: u64) -> Found
    ensures most { result.value ≤ most }
    ensures spoiled { ZeroRead talk result }
{
    let found = number(memory, talk);
    if found.value <= most {
        return found;
    }
    spoiled(found.talk)
}

// A table into the first places of `out`. An entry that `T` has no room for spoils the talk.
pub fn read_table<T: Copy + TryFrom<u64, Error = TryFromIntError>>(
    memory: &mut Memory,
    talk: Talk,
    out: &mut [T],
) -> Table
    ensures count { IsCount result.count out.new }
    ensures spoiled { EmptyRead talk result }
{
    let head = small(memory, talk, out.len() as u64);
    let count = head.value as usize;
    let mut talk = head.talk;
    for place in out[..count].iter_mut() {
        let found = number(memory, talk);
        talk = found.talk;
        match T::try_from(found.value) {
            Ok(entry) => *place = entry,
            Err(_) => talk = spoil(talk),
        }
    }
    Table { count, talk }
}
