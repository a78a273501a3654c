// The refusals 13, 14 and 15 of an image. They know its length and its blocks, and nothing of the words.
ghost use Rattle.std.specs.Prelude.{◌≡◌, ◌≤◌, ◌<◌, [], ◌∷◌};
ghost use Rattle.trees.specs.Rulings.{each, verdict};
ghost use Rattle.trees.specs.Answers.{judged_of};
ghost use Rattle.blocks.specs.Blocks.{part, checked, numbered, count};
ghost use Rattle.blocks.specs.Promises.{JudgeBlocksMeets};

use trees::{Refusal, judge_each, refuse};

// Is the check of block k that of its bytes? The block is handed on as a part of the image.
fn sealed_at(image: &[u8], k: usize) -> bool
    requires { k < count image.now }
    ensures { result ≡ checked (part image.now k) }
{
    let a = 512 * k;
    crate::check::sealed(&image[a..a + 512])
}

// Does block k bear its number?
fn numbered_at(image: &[u8], k: usize) -> bool
    requires { k < count image.now }
    ensures { result ≡ numbered k (part image.now k) }
{
    usize::from(crate::word::word_at(image, 512 * k)) == k
}

// 14: the check of each of the n blocks.
fn judge_checks(image: &[u8], n: usize) -> Result<(), Refusal>
    requires { n ≤ count image.now }
    ensures { judged_of result ≡ verdict (each 14 0 n (λ k. checked (part image.now k)) ∷ []) }
{
    judge_each(14, 0, n, |k| sealed_at(image, k))
}

// 15: the number of each of the n blocks.
fn judge_numbers(image: &[u8], n: usize) -> Result<(), Refusal>
    requires { n ≤ count image.now }
    ensures { judged_of result ≡ verdict (each 15 0 n (λ k. numbered k (part image.now k)) ∷ []) }
{
    judge_each(15, 0, n, |k| numbered_at(image, k))
}

// 13, 14 and 15 of an image of which at most `limit` blocks are allowed.
#[tactic(auto, using(crate::proofs::Judging::too_long))]
pub fn judge_blocks(image: &[u8], limit: usize) -> Result<usize, Refusal>
    ensures { JudgeBlocksMeets image.now limit result }
{
    let m = image.len();
    let n = m / 512;
    if m == 0 {
        return Err(refuse(13, 0, 0));
    }
    if m % 512 != 0 {
        return Err(refuse(13, 0, 0));
    }
    if limit < n {
        return Err(refuse(13, 0, 0));
    }
    judge_checks(image, n)?;
    judge_numbers(image, n)?;
    Ok(n)
}
