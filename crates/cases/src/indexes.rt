// Indexes (docs/RULES.md, "The index") that are built: the verdict, and what is left in the lists. These are longer than they need
// be, and hold what is no entry of these cases, so that an entry that was written where it may not be is seen.
use crate::searches::{D5, LENT, OLD_NODE};
use crate::show;
use index::IndexLists;
use network::{Cause, NetworkLists};

// Three nodes with two arcs from 0 to 1, two from 1 to itself, and one from 2 to 0.
pub const LOOPED: NetworkLists = NetworkLists {
    nodes: 3,
    tails: &[0, 1, 2, 0, 1],
    heads: &[1, 1, 0, 1, 1],
    weights: &[1, 1, 1, 2, 2],
};

// Room for an index: its lists, with so many entries for arcs and so many for where a node's begin.
#[derive(Drop)]
pub struct IndexRoom<const ARCS: usize, const BEGINS: usize> {
    out_arcs: [u16; ARCS],
    out_begins: [u16; BEGINS],
    in_arcs: [u16; ARCS],
    in_begins: [u16; BEGINS],
}

impl<const ARCS: usize, const BEGINS: usize> IndexRoom<ARCS, BEGINS> {
    // The lists before anything is built in them.
    pub fn unwritten() -> Self {
        IndexRoom {
            out_arcs: [OLD_NODE; ARCS],
            out_begins: [OLD_NODE; BEGINS],
            in_arcs: [OLD_NODE; ARCS],
            in_begins: [OLD_NODE; BEGINS],
        }
    }

    // The same lists, lent to be written.
    pub fn lent(&mut self) -> IndexLists<&mut [u16]> {
        IndexLists {
            out_arcs: &mut self.out_arcs,
            out_begins: &mut self.out_begins,
            in_arcs: &mut self.in_arcs,
            in_begins: &mut self.in_begins,
        }
    }
}

// The four lists of an index, each with a bar after what the index of this network has there, if it has been built.
pub fn show_lists(
    out: &impl Print,
    network: NetworkLists,
    built: Result<(), Cause>,
    held: IndexLists<&[u16]>,
) {
    let (arcs, begins) = match built {
        Ok(()) => (network.tails.len(), usize::from(network.nodes) + 1),
        Err(_) => (0, 0),
    };
    show::list(out, "  out arcs:", held.out_arcs, arcs);
    show::list(out, "  out begins:", held.out_begins, begins);
    show::list(out, "  in arcs:", held.in_arcs, arcs);
    show::list(out, "  in begins:", held.in_begins, begins);
}

fn build(out: &impl Print, name: &str, network: NetworkLists) {
    let mut lists = IndexRoom::<LENT, LENT>::unwritten();
    let mut held = lists.lent();
    let built = index::build(network, &mut held);
    show::verdict(out, name, built);
    show_lists(out, network, built, held.shown());
}

// D5; parallel arcs and arcs from a node to itself; one node and no arcs. Refused: lists too short for nine arcs, and for eight
// nodes; a tail that is no node, at the lowest arc that has one.
pub fn builds(out: &impl Print) {
    build(out, "index of D5", D5);
    build(out, "index with loops", LOOPED);
    let no_arcs = NetworkLists {
        nodes: 1,
        tails: &[],
        heads: &[],
        weights: &[],
    };
    build(out, "index of no arcs", no_arcs);
    let nine_arcs = NetworkLists {
        nodes: 1,
        tails: &[0; 9],
        heads: &[0; 9],
        weights: &[0; 9],
    };
    build(out, "index, nine arcs", nine_arcs);
    let eight_nodes = NetworkLists {
        nodes: 8,
        tails: &[0],
        heads: &[1],
        weights: &[1],
    };
    build(out, "index, eight nodes", eight_nodes);
    let bad_tail = NetworkLists {
        tails: &[0, 1, 5, 0, 5],
        ..D5
    };
    build(out, "index, bad tail", bad_tail);
}
