// The check of a block: two sums of 16 bits by wrapping add over its bytes 0 to 507. A block is handed in as the part of 512 bytes of
// the image from the block's start.
ghost use Rattle.std.specs.Prelude.{◌≡◌, length};
ghost use Rattle.blocks.specs.Blocks.{grown};
ghost use Rattle.blocks.specs.Answers.{sums_of};
ghost use Rattle.blocks.specs.Promises.{AddUpMeets, SealedMeets};

// The sums A and B.
#[derive(Clone, Copy)]
pub struct Sums(pub u16, pub u16);

// The sums after one more byte: A grows by the byte, and B by the new A.
fn grow(s: Sums, byte: u8) -> Sums
    ensures { sums_of result ≡ grown (sums_of s) byte }
{
    let a = s.0.wrapping_add(u16::from(byte));
    let b = s.1.wrapping_add(a);
    Sums(a, b)
}

// The sums over the bytes 0 to 507 of a block, in order, four bytes a turn.
pub fn add_up(b: &[u8]) -> Sums
    requires { length b.now ≡ 512 }
    ensures { AddUpMeets b.now result }
{
    let mut s = Sums(0, 0);
    for four in b[..508].chunks_exact(4) {
        for &byte in four {
            s = grow(s, byte);
        }
    }
    s
}

// Is the check of a block that of its bytes?
pub fn sealed(b: &[u8]) -> bool
    requires { length b.now ≡ 512 }
    ensures { SealedMeets b.now result }
{
    let c = add_up(b);
    let x = c.0;
    let y = c.1;
    crate::word::word_at(b, 508) == x && crate::word::word_at(b, 510) == y
}
