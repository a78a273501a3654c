// The requests over the trees: each reads what its call still needs, makes the call, and puts the answer and the lent tables. Of a
// spoiled talk nothing is put.
use answers::{of_dating, of_judged, of_least, of_offered};
use talks::{Memory, Talk};
use trees::{GeneNode, Tree, Trees};

pub(crate) fn judge_species(memory: &mut Memory, talk: Talk, species: &Tree<'_>) -> Talk {
    let answer = judges::judge_species(species);
    showing::put_line(memory, talk, of_judged(answer))
}

pub(crate) fn judge_pair(memory: &mut Memory, talk: Talk, trees: &Trees<'_>) -> Talk {
    let answer = judges::judge_pair(trees);
    showing::put_line(memory, talk, of_judged(answer))
}

// A history's two tables.
pub(crate) fn put_history(memory: &mut Memory, talk: Talk, places: &[u16], labels: &[u16]) -> Talk {
    let then = showing::put_table(memory, talk, places);
    showing::put_table(memory, then, labels)
}

pub(crate) fn least_history(
    memory: &mut Memory,
    talk: Talk,
    trees: &Trees<'_>,
    places: &mut [u16],
    labels: &mut [u16],
) -> Talk {
    let dw = dialogue::small(memory, talk, 65535);
    let lw = dialogue::small(memory, dw.talk, 65535);
    let answer = least::least_history(trees, places, labels, dw.value as u16, lw.value as u16);
    let then = showing::put_line(memory, lw.talk, of_least(answer));
    put_history(memory, then, places, labels)
}

pub(crate) fn judge_offer(
    memory: &mut Memory,
    talk: Talk,
    trees: &Trees<'_>,
    places: &[u16],
    labels: &[u16],
) -> Talk {
    let answer = offers::judge_offer(trees, places, labels);
    showing::put_line(memory, talk, of_offered(answer))
}

pub(crate) fn date(memory: &mut Memory, talk: Talk, trees: &Trees<'_>) -> Talk {
    let node = dialogue::number(memory, talk);
    let answer = dates::date(trees, GeneNode(node.value as usize));
    showing::put_line(memory, node.talk, of_dating(answer))
}
