// The number and the check of a block, put into it. A block is handed in as the part of 512 bytes of the image from the block's start.
ghost use Rattle.std.specs.Prelude.{◌≡◌, length};
ghost use Rattle.blocks.specs.Blocks.{block, inside, Whole};
ghost use Rattle.puts.specs.Promises.{SealAllMeets};

use crate::word;
use blocks::check;

// The number k and the check put into a block whose content stands.
fn seal(b: &mut [u8], k: u16)
    requires { length b.old ≡ 512 }
    ensures { b.new ≡ block k (inside b.old) }
{
    word::put_word(b, 0, k);
    let c = check::add_up(b);
    let x = c.0;
    let y = c.1;
    word::put_word(b, 508, x);
    word::put_word(b, 510, y);
}

// The number and the check put into every block of an image whose contents stand.
pub fn seal_all(image: &mut [u8])
    requires { Whole image.old }
    ensures { SealAllMeets image.old image.new }
{
    let n = image.len() / 512;
    for k in 0..n {
        let a = 512 * k;
        seal(&mut image[a..a + 512], k as u16);
    }
}
