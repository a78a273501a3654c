// What the program `history` prints: numbers and lines, into a lent buffer.
//
// The `put` functions write from the place `at` on, need the room, and answer the place behind what they wrote. The `write`
// functions write from the start and answer how many bytes; if the buffer is too short they write nothing and answer 0.
#![tactic(auto)]

ghost use Rattle.std.specs.Prelude.{◌≡◌, ◌+◌, ◌≤◌, length};
ghost use Rattle.least.specs.Answers.{counts_of};
ghost use Rattle.printing.specs.Printing.{ended, letter, node_line, counts_line, refused_word};
ghost use Rattle.printing.specs.Putting.{DigitCount, LinesSize, CountsSize, told_lines, LinesRoom, Printable, Put};
ghost use Rattle.printing.specs.Promises.{PutNumberMeets, WriteRefusalMeets, WriteHistoryMeets};

use least::LeastCounts;
use trees::{GeneNode, Refusal, SpeciesNode};

// How many decimal digits n has.
fn digit_count(n: u64) -> usize
    ensures { DigitCount n result }
{
    let mut count: usize = 1;
    let mut rest = n;
    while 10 <= rest {
        rest /= 10;
        count += 1;
    }
    count
}

// The number n and the byte `end` behind it. The digits are written from the last one on.
pub fn put_number(n: u64, end: u8, at: usize, out: &mut [u8]) -> usize
    requires { at + length (ended n end) ≤ length out.old }
    ensures { PutNumberMeets n end at out.old result out.new }
{
    let stop = at + digit_count(n);
    let mut i = stop;
    let mut rest = n;
    while 10 <= rest {
        i -= 1;
        out[i] = b'0' + (rest % 10) as u8;
        rest /= 10;
    }
    out[i - 1] = b'0' + rest as u8;
    out[stop] = end;
    stop + 1
}

// The letter of a label: L for a leaf, S for a speciation, D for a duplication.
#[tactic(auto, unfolding(crate::specs::Printing::letter, trees::specs::Lists::pick))]
fn letter_of(label: u16) -> u8
    ensures { result ≡ letter label }
{
    match label {
        0 => b'L',
        1 => b'S',
        _ => b'D',
    }
}

// The line of a gene node, with its place and its label.
fn put_node(node: GeneNode, place: SpeciesNode, label: u16, at: usize, out: &mut [u8]) -> usize
    requires { at + length (node_line node.0 place.0 label) ≤ length out.old }
    ensures { Put at (node_line node.0 place.0 label) out.old out.new result }
{
    let a = put_number(node.0 as u64, b' ', at, out);
    let b = put_number(place.0 as u64, b' ', a, out);
    out[b] = letter_of(label);
    out[b + 1] = b'\n';
    b + 2
}

// How many bytes the lines of all gene nodes take, whatever their labels.
fn lines_size(places: &[u16]) -> usize
    requires { length places.now ≤ 2047 }
    ensures { LinesSize places.now result }
{
    let mut size: usize = 0;
    for (i, &place) in places.iter().enumerate() {
        size += digit_count(i as u64) + digit_count(place as u64) + 4;
    }
    size
}

// The lines of all gene nodes.
fn put_lines(places: &[u16], labels: &[u16], out: &mut [u8]) -> usize
    requires { LinesRoom places.now labels.now out.old }
    ensures { Put 0 (told_lines places.now labels.now) out.old out.new result }
{
    let mut at: usize = 0;
    for (i, &place) in places.iter().enumerate() {
        let place = SpeciesNode(usize::from(place));
        at = put_node(GeneNode(i), place, labels[i], at, out);
    }
    at
}

// The word `refused` and a space, at the start.
fn put_refused(out: &mut [u8]) -> usize
    requires { 8 ≤ length out.old }
    ensures { Put 0 refused_word out.old out.new result }
{
    out[..8].copy_from_slice(b"refused ");
    8
}

// The one line of a refusal.
pub fn write_refusal(refusal: Refusal, out: &mut [u8]) -> usize
    ensures { WriteRefusalMeets refusal out.old result out.new }
{
    let number = refusal.number as u64;
    let tree = refusal.tree as u64;
    let place = refusal.place as u64;
    let size = 11 + digit_count(number) + digit_count(tree) + digit_count(place);
    if out.len() < size {
        return 0;
    }
    let a = put_refused(out);
    let b = put_number(number, b' ', a, out);
    let c = put_number(tree, b' ', b, out);
    put_number(place, b'\n', c, out)
}

// How many bytes the line of the counts takes.
fn counts_size(counts: LeastCounts) -> usize
    ensures { CountsSize (counts_of counts) result }
{
    let duplications = digit_count(counts.duplications as u64);
    let losses = digit_count(counts.losses as u64);
    let speciations = digit_count(counts.speciations as u64);
    let climbs = digit_count(counts.climbs as u64);
    let cost = digit_count(counts.cost);
    duplications + losses + speciations + climbs + cost + 5
}

// The line of the counts.
fn put_counts(counts: LeastCounts, at: usize, out: &mut [u8]) -> usize
    requires { at + length (counts_line (counts_of counts)) ≤ length out.old }
    ensures { Put at (counts_line (counts_of counts)) out.old out.new result }
{
    let a = put_number(counts.duplications as u64, b' ', at, out);
    let b = put_number(counts.losses as u64, b' ', a, out);
    let c = put_number(counts.speciations as u64, b' ', b, out);
    let d = put_number(counts.climbs as u64, b' ', c, out);
    put_number(counts.cost, b'\n', d, out)
}

// The lines of all gene nodes, then the line of the counts.
pub fn write_history(places: &[u16], labels: &[u16], counts: LeastCounts, out: &mut [u8]) -> usize
    requires { Printable places.now labels.now }
    ensures { WriteHistoryMeets places.now labels.now counts out.old result out.new }
{
    let size = lines_size(places) + counts_size(counts);
    if out.len() < size {
        return 0;
    }
    let at = put_lines(places, labels, out);
    put_counts(counts, at, out)
}
