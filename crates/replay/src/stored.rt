// The requests about images: writing, loading, and what the C collector asks. Of a spoiled talk nothing is put.
use crate::calls::put_history;
use crate::tables::{with_image, with_labels, with_tables, with_taxa};
use answers::{fine, of_refusal};
use loading::Stored;
use showing::Line;
use talks::{Memory, Talk};
use trees::{Refusal, Tree, Trees};

fn of_written(answer: Result<usize, Refusal>) -> Line {
    match answer {
        Ok(n) => fine(1, [n as u64, 0, 0, 0, 0]),
        Err(r) => of_refusal(r),
    }
}

pub(crate) fn write_image(
    memory: &mut Memory,
    talk: Talk,
    trees: &Trees<'_>,
    places: &[u16],
    labels: &[u16],
) -> Talk {
    with_image(memory, talk, |memory, talk, image| {
        let answer = writing::write_image(trees, places, labels, image);
        let then = showing::put_line(memory, talk, of_written(answer));
        showing::put_table(memory, then, image)
    })
}

fn of_loaded(answer: Result<Stored, Refusal>) -> Line {
    match answer {
        Ok(c) => fine(
            4,
            [
                c.species as u64,
                c.genes as u64,
                u64::from(c.duplications),
                u64::from(c.losses),
                0,
            ],
        ),
        Err(r) => of_refusal(r),
    }
}

pub(crate) fn load_image(memory: &mut Memory, talk: Talk, species: &Tree<'_>) -> Talk {
    with_image(memory, talk, |memory, talk, image| {
        with_taxa(memory, talk, |memory, talk, parents, taxa| {
            with_labels(memory, talk, |memory, talk, places, labels| {
                let answer = loading::load_image(species, image, parents, taxa, places, labels);
                let a = showing::put_line(memory, talk, of_loaded(answer));
                let b = showing::put_table(memory, a, parents);
                let c = showing::put_table(memory, b, taxa);
                put_history(memory, c, places, labels)
            })
        })
    })
}

fn host_line(image: &[u8], parents: &[u8], taxa: &[u8]) -> Line {
    let refusal = u64::from(collector::panheron_refusal(image, parents, taxa));
    let duplications = u64::from(collector::panheron_duplications(image, parents, taxa));
    let losses = u64::from(collector::panheron_losses(image, parents, taxa));
    fine(3, [refusal, duplications, losses, 0, 0])
}

pub(crate) fn ask_collector(memory: &mut Memory, talk: Talk) -> Talk {
    with_image(memory, talk, |memory, talk, image| {
        with_tables(
            memory,
            talk,
            &mut [0u8; 8400],
            &mut [0u8; 8400],
            |memory, talk, parents, taxa| {
                showing::put_line(memory, talk, host_line(image, parents, taxa))
            },
        )
    })
}
