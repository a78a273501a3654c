// Reads two trees from standard input and prints the least history. All that matters is in the crate `text`.
#![tactic(auto)]

// The numbers of standard input and standard output.
const STDIN_FILENO: i32 = 0;

const STDOUT_FILENO: i32 = 1;

fn main() {
    // one byte more than a text may have, so that a longer one is seen
    let mut input = [0u8; 49153];
    let mut out = [0u8; 24598];
    let n = io::read_full(STDIN_FILENO, &mut input);
    let m = text::history_text(&input[..n], &mut out);
    io::write_all(STDOUT_FILENO, &out[..m]);
}
