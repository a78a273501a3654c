// What the program `replay` shows: lines of numbers, gathered in the second part of its memory and written when that is full. What is
// written is not in a promise, since the kit's `write` promises nothing of it; what the memory holds is.
#![tactic(auto)]

ghost use Rattle.std.specs.Prelude.{◌≡◌, ℕ, map};
ghost use Rattle.showing.specs.Holding.{Held, held, put_byte_lem, put_bytes_lem};
ghost use Rattle.showing.specs.Lines.{numeral, spaced, word_bytes, all_spaced, entry_bytes};
ghost use Rattle.showing.specs.Promises.{PutTextMeets, PutLineMeets, PutTableMeets, WideMeets};

use talks::{Memory, Talk, holding};

// The number of standard output.
const STDOUT_FILENO: i32 = 1;

// The line `refused` or `ok`, and the first `count` of the numbers.
// A flag beside three or five numbers, not an enum: put_line (PutLineMeets) promises something of every such line, and an enum would ask
// more of callers.
#[derive(Clone, Copy)]
pub struct Line {
    pub refused: bool,
    pub count: usize,
    pub numbers: [u64; 5],
}

// Writes the bytes that are held.
fn write_held(memory: &Memory, used: usize) {
    if let Some(held) = memory[65536..].get(..used) {
        io::write_all(STDOUT_FILENO, held);
    }
}

// Writes what is still to be written.
pub fn flush(memory: &Memory, talk: Talk) {
    write_held(memory, talk.used);
}

// One byte more; the answer is how many are held now.
fn put(memory: &mut Memory, used: usize, b: u8) -> usize
    ensures { ◌≡◌ {A = Held} (held memory.new result) (put_byte_lem (held memory.old used) b) }
{
    if used < 4096 {
        memory[65536 + used] = b;
        return used + 1;
    }
    write_held(memory, used);
    memory[65536] = b;
    1
}

fn text(memory: &mut Memory, used: usize, bytes: &[u8]) -> usize
    ensures { ◌≡◌ {A = Held} (held memory.new result) (put_bytes_lem (held memory.old used) bytes.now) }
{
    let mut held = used;
    for &byte in bytes {
        held = put(memory, held, byte);
    }
    held
}

fn decimal(memory: &mut Memory, used: usize, n: u64) -> usize
    ensures { ◌≡◌ {A = Held} (held memory.new result) (put_bytes_lem (held memory.old used) (numeral n)) }
{
    let mut digits = [0u8; 21];
    let k = printing::put_number(n, b' ', 0, &mut digits) - 1;
    text(memory, used, &digits[..k])
}

// A space, and a number.
fn next(memory: &mut Memory, used: usize, n: u64) -> usize
    ensures { ◌≡◌ {A = Held} (held memory.new result) (put_bytes_lem (held memory.old used) (spaced n)) }
{
    let held = put(memory, used, b' ');
    decimal(memory, held, n)
}

// The word that a line begins with.
fn head(memory: &mut Memory, used: usize, refused: bool) -> usize
    ensures { ◌≡◌ {A = Held} (held memory.new result) (put_bytes_lem (held memory.old used) (word_bytes refused)) }
{
    if refused {
        return text(memory, used, b"refused");
    }
    text(memory, used, b"ok")
}

// The numbers, and the line's end.
fn rest(memory: &mut Memory, used: usize, numbers: &[u64]) -> usize
    ensures { ◌≡◌ {A = Held} (held memory.new result) (put_bytes_lem (held memory.old used) (all_spaced numbers.now)) }
{
    let mut held = used;
    for &n in numbers {
        held = next(memory, held, n);
    }
    put(memory, held, b'\n')
}

// A text, also where the talk is spoiled.
pub fn put_text(memory: &mut Memory, talk: Talk, bytes: &[u8]) -> Talk
    ensures { PutTextMeets memory.old talk bytes.now result memory.new }
{
    let used = text(memory, talk.used, bytes);
    holding(talk, used)
}

pub fn put_line(memory: &mut Memory, talk: Talk, shown: Line) -> Talk
    ensures { PutLineMeets memory.old talk shown result memory.new }
{
    if !talk.more {
        return talk;
    }
    let held = head(memory, talk.used, shown.refused);
    let used = rest(memory, held, &shown.numbers[..shown.count.min(5)]);
    holding(talk, used)
}

// An entry of a table: no space before the first.
#[tactic(auto, unfolding(crate::specs::Lines::entry_bytes, trees::specs::Lists::pick))]
fn entry(memory: &mut Memory, used: usize, i: usize, n: u64) -> usize
    ensures { ◌≡◌ {A = Held} (held memory.new result) (put_bytes_lem (held memory.old used) (entry_bytes i n)) }
{
    if i == 0 {
        return decimal(memory, used, n);
    }
    next(memory, used, n)
}

// What a table holds: numbers of 8, 16 or 32 bits.
pub trait Number: Copy {
    ghost number: { Self → ℕ };

    fn wide(self) -> u64
        ensures { WideMeets number self result };
}

impl Number for u8 {
    ghost number = { λ x. x };

    fn wide(self) -> u64 {
        u64::from(self)
    }
}

impl Number for u16 {
    ghost number = { λ x. x };

    fn wide(self) -> u64 {
        u64::from(self)
    }
}

impl Number for u32 {
    ghost number = { λ x. x };

    fn wide(self) -> u64 {
        u64::from(self)
    }
}

// A line with all entries of a table.
pub fn put_table<T: Number>(memory: &mut Memory, talk: Talk, table: &[T]) -> Talk
    ensures { PutTableMeets memory.old talk (map T.number table.now) result memory.new }
{
    if !talk.more {
        return talk;
    }
    let mut used = talk.used;
    for (i, x) in table.iter().enumerate() {
        used = entry(memory, used, i, x.wide());
    }
    holding(talk, put(memory, used, b'\n'))
}
