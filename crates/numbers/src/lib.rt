// Decimal numbers in a text, read from a place of it on. One pass: a place is handed on, and never goes back.
#![tactic(auto)]

ghost use Rattle.std.specs.Prelude.{◌≡◌, ◌≤◌, ◌^◌, ◌&&◌, length, ltb};
ghost use Rattle.std.specs.List.{take_while};
ghost use Rattle.trees.specs.Lists.{pick};
ghost use Rattle.numbers.specs.Words.{blank};
ghost use Rattle.numbers.specs.Cursor.{found, nothing, number_at};
ghost use Rattle.numbers.specs.Promises.{number_of, SkipBlanksMeets, ReadNumberMeets};

// A number, and the place behind it.
#[derive(Clone, Copy)]
pub struct Number {
    pub value: u32,
    pub next: usize,
}

// A separator: a space or a line feed.
#[tactic(auto, unfolding(crate::specs::Words::blank))]
fn is_blank(byte: u8) -> bool
    ensures { result ≡ blank byte }
{
    byte == b' ' || byte == b'\n'
}

// How many blanks a text begins with.
fn blanks(text: &[u8]) -> usize
    ensures { result ≡ length (take_while blank text.now) }
{
    text.iter().take_while(|&&byte| is_blank(byte)).count()
}

// The first place from `at` on with no blank, or the end.
#[tactic(auto, using(crate::proofs::Cursor::past_count))]
pub fn skip_blanks(text: &[u8], at: usize) -> usize
    requires { at ≤ length text.now }
    ensures { SkipBlanksMeets text.now at result }
{
    at + blanks(&text[at..])
}

// A word of digits from `at` up to `end` that spells `value`: a number if there is a digit and the value fits 32 bits.
#[tactic(auto, unfolding(trees::specs::Lists::pick))]
fn closed(value: u64, at: usize, end: usize) -> Option<Number>
    ensures { number_of result ≡ pick (ltb at end && ltb value (2 ^ 32)) (found value end) nothing }
{
    if end <= at {
        return None;
    }
    let value = u32::try_from(value).ok()?;
    Some(Number { value, next: end })
}

// The word that begins at `at`, up to a blank or the end.
fn read_word(text: &[u8], at: usize) -> Option<Number>
    requires { at ≤ length text.now }
    ensures { number_of result ≡ number_at text.now at }
{
    let mut value: u64 = 0;
    for i in at..text.len() {
        let byte = text[i];
        if is_blank(byte) {
            return closed(value, at, i);
        }
        if !byte.is_ascii_digit() {
            return None;
        }
        if 10 <= i - at {
            return None;
        }
        value = 10 * value + u64::from(byte - b'0');
    }
    closed(value, at, text.len())
}

// The first word from `at` on.
pub fn read_number(text: &[u8], at: usize) -> Option<Number>
    requires { at ≤ length text.now }
    ensures { ReadNumberMeets text.now at result }
{
    read_word(text, skip_blanks(text, at))
}
