// Reads requests from standard input, makes the calls, and prints what they answer and leave. docs/REPLAY.md is its manual.
#![tactic(auto)]

mod calls;
mod request;
mod stored;
mod tables;

use request::{NoCode, Request};
use tables::{with_history, with_tree, with_trees};
use talks::{Memory, Talk};

// Reads the tables of a request, makes its call, and puts what that answers and leaves.
fn answer(request: Request, memory: &mut Memory, talk: Talk) -> Talk {
    match request {
        Request::JudgeSpecies => with_tree(memory, talk, calls::judge_species),
        Request::JudgePair => with_trees(memory, talk, calls::judge_pair),
        Request::LeastHistory => with_history(memory, talk, calls::least_history),
        Request::JudgeOffer => with_history(memory, talk, |memory, talk, trees, places, labels| {
            calls::judge_offer(memory, talk, trees, places, labels)
        }),
        Request::Date => with_trees(memory, talk, calls::date),
        Request::WriteImage => with_history(memory, talk, |memory, talk, trees, places, labels| {
            stored::write_image(memory, talk, trees, places, labels)
        }),
        Request::LoadImage => with_tree(memory, talk, stored::load_image),
        Request::AskCollector => stored::ask_collector(memory, talk),
    }
}

// The next request, if there is one.
fn turn(memory: &mut Memory, talk: Talk) -> Talk {
    let Some(code) = dialogue::number_if_any(memory, talk) else {
        return talks::spoil(talk);
    };
    let after = match Request::try_from(code.value) {
        Ok(request) => answer(request, memory, code.talk),
        Err(NoCode(_)) => talks::spoil(code.talk),
    };
    if after.more {
        return after;
    }
    showing::put_text(memory, after, b"bad request\n")
}

// All requests. There are fewer than the loop has turns.
fn run(memory: &mut Memory) {
    let mut talk = talks::begin();
    for _ in 0..1099511627776u64 {
        talk = turn(memory, talk);
        if !talk.more {
            break;
        }
    }
    showing::flush(memory, talk);
}

fn main() {
    let mut memory = [0u8; 69632];
    run(&mut memory);
}
