// Queries that are tested and not searched: sizes at the bounds (docs/RULES.md, "The network and a query") and beyond them,
// and lists that are too short. Each is one line, its name and what the refusal table says.
use crate::searches::BEGINS;
use crate::show;
use index::IndexLists;
use network::{Lent, MOST_ARCS, NetworkLists, Potentials, QueryLists};

// One node, an arc from it to itself, and a query from it to itself with pattern 0.
const LOOP: QueryLists = QueryLists {
    network: NetworkLists {
        nodes: 1,
        tails: &[0],
        heads: &[0],
        weights: &[0],
    },
    potentials: Potentials {
        forward: &[0],
        backward: &[0],
    },
    start: 0,
    end: 0,
    pattern: &[0],
};

// Lent lists of so many entries each.
pub fn room(entries: usize) -> Lent {
    Lent {
        start_labels: entries,
        start_neighbours: entries,
        end_labels: entries,
        end_neighbours: entries,
        states: entries,
        path: entries,
    }
}

// A query with a path list of so many entries, and work lists of as many as there are nodes. It has its index, where that can be
// built.
fn test(out: &impl Print, name: &str, asked: QueryLists, path: usize) {
    let mut held: IndexLists<&mut [u16]> = IndexLists {
        out_arcs: &mut [0; MOST_ARCS],
        out_begins: &mut [0; BEGINS],
        in_arcs: &mut [0; MOST_ARCS],
        in_begins: &mut [0; BEGINS],
    };
    let _ = index::build(asked.network, &mut held);
    let lent = Lent {
        path,
        ..room(usize::from(asked.network.nodes))
    };
    show::verdict(out, name, index::check_query(asked, held.shown(), lent));
}

// So many nodes, with the same potentials on both sides.
fn sized(out: &impl Print, name: &str, nodes: u16, potentials: &[i32], path: usize) {
    let asked = QueryLists {
        network: NetworkLists {
            nodes,
            ..LOOP.network
        },
        potentials: Potentials {
            forward: potentials,
            backward: potentials,
        },
        ..LOOP
    };
    test(out, name, asked, path);
}

// Node counts, and lists that are one entry short.
pub fn node_counts(out: &impl Print) {
    sized(out, "0 nodes", 0, &[0; 1], 0);
    sized(out, "2,048 nodes", 2048, &[0; 2048], 2048);
    sized(out, "2,049 nodes", 2049, &[0; 2049], 2049);
    sized(out, "65,535 nodes", 65535, &[0; 65535], 65535);
    sized(out, "potentials one short", 2048, &[0; 2047], 2048);
    sized(out, "path one short", 2048, &[0; 2048], 2047);
}

// So many arcs.
fn joined(out: &impl Print, name: &str, ends: &[u16], weights: &[u32]) {
    let asked = QueryLists {
        network: NetworkLists {
            tails: ends,
            heads: ends,
            weights,
            ..LOOP.network
        },
        ..LOOP
    };
    test(out, name, asked, 1);
}

pub fn arc_counts(out: &impl Print) {
    joined(out, "8,192 arcs", &[0; 8192], &[0; 8192]);
    joined(out, "8,193 arcs", &[0; 8193], &[0; 8193]);
    joined(out, "weights one short", &[0; 8192], &[0; 8191]);
}

// A pattern.
fn turned(out: &impl Print, name: &str, pattern: &[u8]) {
    test(out, name, QueryLists { pattern, ..LOOP }, 1);
}

pub fn patterns(out: &impl Print) {
    turned(out, "no entries", &[]);
    turned(out, "64 entries", &[1; 64]);
    turned(out, "65 entries", &[1; 65]);
    turned(out, "entry 2", &[0, 1, 2]);
}
