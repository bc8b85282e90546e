// Answers and lists in words on standard output. What cannot be written there is passed over.
use crate::lines;
use network::{Answer, Cause};
use std::fmt::Display;

// A refusal, by its line.
fn refusal(out: &impl Print, name: &str, cause: Cause) {
    let _ = print!(out; "{name}: refused, ");
    lines::answer(out, Answer::Refused(cause), &[]);
}

// What the refusal table says of a query, on one line.
pub fn verdict(out: &impl Print, name: &str, verdict: Result<(), Cause>) {
    match verdict {
        Ok(()) => {
            let _ = println!(out; "{name}: accepted");
        }
        Err(cause) => refusal(out, name, cause),
    }
}

// An answer with its figures, on one line. Length and excess of a provisional one stand in its answer line.
pub fn answer(out: &impl Print, name: &str, answer: Answer) {
    let figures = match answer {
        Answer::Route {
            length,
            nodes,
            figures,
        } => {
            let _ = print!(out; "{name}: route, length {length}, path nodes {nodes}");
            figures
        }
        Answer::NoRoute(figures) => {
            let _ = print!(out; "{name}: no route");
            figures
        }
        Answer::Refused(cause) => {
            refusal(out, name, cause);
            return;
        }
        Answer::Provisional { figures, .. } => {
            let _ = print!(out; "{name}: provisional");
            figures
        }
        Answer::Undecided(figures) => {
            let _ = print!(out; "{name}: undecided");
            figures
        }
    };
    let _ = println!(out;
        ", turns {}, opened by start side {}, by end side {}, rejected {}",
        figures.turns, figures.opened_by_start, figures.opened_by_end, figures.rejected
    );
}

// A list of labels, of nodes, of states or of a pattern's entries. A bar stands before the first entry that is beyond those written.
pub fn list<T: Display>(out: &impl Print, name: &str, entries: &[T], written: usize) {
    let _ = print!(out; "{name}");
    for (i, entry) in entries.iter().enumerate() {
        if i == written {
            let _ = print!(out; " |");
        }
        let _ = print!(out; " {entry}");
    }
    let _ = println!(out);
}
