// Searches: P1 to P12 (docs/RULES.md, "Cases"), and P1 to P4 at caps, each with its answer, its path, the tables that it leaves
// and its answer lines; and the largest shortest length. P1 to P12 have a cap that no search reaches, and that length none. The
// lent lists are longer than the node count, and hold what is no label, node or state of these cases, so that an entry that was
// written where it may not be is seen. Each search is over an index that is built for it; where the build is refused, the lists of
// the index hold nothing of use, and the query has that refusal too, or one that comes before it.
ghost use Rattle.std.specs.Prelude.{◌≤◌};

use crate::indexes::IndexRoom;
use crate::{lines, show};
use index::IndexLists;
use network::{Answer, MOST_NODES, MOST_WEIGHT, NetworkLists, Potentials, QueryLists};
use search::Work;

// What the lent lists hold before a search.
const OLD_LABEL: u32 = 77;

pub const OLD_NODE: u16 = 77;

const OLD_STATE: u8 = 77;

// A cap that no search reaches, which is as good as none.
pub const NO_CAP: u16 = 65535;

// The entries of each lent list: three more than district D5 has nodes, or arcs.
pub const LENT: usize = 5 + 3;

// The network of district D5 (docs/RULES.md, "District D5").
pub const D5: NetworkLists = NetworkLists {
    nodes: 5,
    tails: &[0, 1, 2, 0, 4],
    heads: &[1, 2, 3, 4, 3],
    weights: &[1, 1, 1, 2, 2],
};

// The queries in district D5.
const P1: QueryLists = QueryLists {
    network: D5,
    potentials: Potentials {
        forward: &[0; 5],
        backward: &[0; 5],
    },
    start: 0,
    end: 3,
    pattern: &[0, 1],
};

const P2: QueryLists = QueryLists {
    pattern: &[1],
    ..P1
};

const P3: QueryLists = QueryLists {
    start: 2,
    end: 2,
    ..P1
};

const P4: QueryLists = QueryLists {
    start: 3,
    end: 0,
    ..P1
};

// The chain's last node, how many nodes and arcs it has, and how many entries its index has for where a node's arcs begin.
const LAST: u16 = MOST_NODES - 1;

const NODES: usize = MOST_NODES as usize;

const ARCS: usize = LAST as usize;

pub const BEGINS: usize = NODES + 1;

// How many first entries of the work lists and of the path list an answer speaks of.
#[derive(Clone, Copy)]
struct Counts {
    tables: usize,
    path: usize,
}

fn written(answer: Answer, nodes: u16) -> Counts {
    let tables = usize::from(nodes);
    match answer {
        Answer::Route { nodes, .. } | Answer::Provisional { nodes, .. } => Counts {
            tables,
            path: usize::from(nodes),
        },
        Answer::NoRoute(_) | Answer::Undecided(_) => Counts { tables, path: 0 },
        Answer::Refused(_) => Counts { tables: 0, path: 0 },
    }
}

// A query over an index: what it answers at a cap and what it leaves.
pub fn query(out: &impl Print, name: &str, asked: QueryLists, held: IndexLists<&[u16]>, cap: u16) {
    let mut start_labels = [OLD_LABEL; LENT];
    let mut start_neighbours = [OLD_NODE; LENT];
    let mut end_labels = [OLD_LABEL; LENT];
    let mut end_neighbours = [OLD_NODE; LENT];
    let mut states = [OLD_STATE; LENT];
    let mut path = [OLD_NODE; LENT];
    let mut work = Work {
        start_labels: &mut start_labels,
        start_neighbours: &mut start_neighbours,
        end_labels: &mut end_labels,
        end_neighbours: &mut end_neighbours,
        states: &mut states,
        path: &mut path,
    };
    let answer = search::capped_query(asked, held, cap, &mut work);
    let written = written(answer, asked.network.nodes);
    let tables = written.tables;
    show::answer(out, name, answer);
    show::list(out, "  path:", work.path, written.path);
    show::list(out, "  start labels:", work.start_labels, tables);
    show::list(out, "  start neighbours:", work.start_neighbours, tables);
    show::list(out, "  end labels:", work.end_labels, tables);
    show::list(out, "  end neighbours:", work.end_neighbours, tables);
    show::list(out, "  states:", work.states, tables);
    lines::answer(out, answer, work.path);
}

// One case: an index for its arcs, and the query over it.
fn case(out: &impl Print, name: &str, asked: QueryLists, cap: u16) {
    let mut lists = IndexRoom::<LENT, LENT>::unwritten();
    let mut held = lists.lent();
    let _ = index::build(asked.network, &mut held);
    query(out, name, asked, held.shown(), cap);
}

// P5 to P10: two nodes, one arc from 0 to 1, a query from 0 to 1 and pattern 0.
fn on_one_arc(out: &impl Print, name: &str, weight: u32, forward: [i32; 2], backward: [i32; 2]) {
    let asked = QueryLists {
        network: NetworkLists {
            nodes: 2,
            tails: &[0],
            heads: &[1],
            weights: &[weight],
        },
        potentials: Potentials {
            forward: &forward,
            backward: &backward,
        },
        start: 0,
        end: 1,
        pattern: &[0],
    };
    case(out, name, asked, NO_CAP);
}

// P1 to P10.
fn first_ten(out: &impl Print) {
    case(out, "P1", P1, NO_CAP);
    case(out, "P2", P2, NO_CAP);
    case(out, "P3", P3, NO_CAP);
    case(out, "P4", P4, NO_CAP);
    on_one_arc(out, "P5", 1, [1, 0], [0; 2]);
    on_one_arc(out, "P6", 1, [2, 0], [0; 2]);
    on_one_arc(out, "P7", 1000000, [0; 2], [0; 2]);
    on_one_arc(out, "P8", 1000001, [0; 2], [0; 2]);
    on_one_arc(out, "P9", 1, [-2047000000; 2], [-2047000000; 2]);
    on_one_arc(out, "P10", 1, [-2047000001, 0], [0; 2]);
}

// P1 to P12.
pub fn p_cases(out: &impl Print) {
    first_ten(out);
    let p11 = QueryLists {
        network: NetworkLists {
            nodes: 1,
            tails: &[],
            heads: &[],
            weights: &[],
        },
        potentials: Potentials {
            forward: &[0],
            backward: &[0],
        },
        start: 0,
        end: 0,
        pattern: &[0],
    };
    case(out, "P11", p11, NO_CAP);
    let p12 = QueryLists {
        network: NetworkLists {
            nodes: 2,
            tails: &[0],
            heads: &[1],
            weights: &[1],
        },
        potentials: Potentials {
            forward: &[0; 2],
            backward: &[0; 2],
        },
        start: 2,
        end: 1,
        pattern: &[],
    };
    case(out, "P12", p12, NO_CAP);
}

// P1 at each cap from 0 to one more than the turns that it takes, P2 at a cap where the excess is 0, P3 and P4 at cap 0, and P4
// at a cap that its search ends within.
pub fn caps(out: &impl Print) {
    case(out, "P1, cap 0", P1, 0);
    case(out, "P1, cap 1", P1, 1);
    case(out, "P1, cap 2", P1, 2);
    case(out, "P1, cap 3", P1, 3);
    case(out, "P1, cap 4", P1, 4);
    case(out, "P1, cap 5", P1, 5);
    case(out, "P1, cap 6", P1, 6);
    case(out, "P2, cap 4", P2, 4);
    case(out, "P3, cap 0", P3, 0);
    case(out, "P4, cap 0", P4, 0);
    case(out, "P4, cap 1", P4, 1);
}

// Nodes in rising order from the first, 0 or 1.
fn rising(first: u16) -> [u16; ARCS]
    requires { first ≤ 1 }
{
    let mut list = [0u16; ARCS];
    for (i, node) in list.iter_mut().enumerate() {
        *node = first + i as u16;
    }
    list
}

// How many entries of a list are in rising order from 0 on.
fn in_order(list: &[u16]) -> usize {
    list.iter()
        .enumerate()
        .take_while(|&(i, &node)| usize::from(node) == i)
        .count()
}

// A query in a network of as many nodes as there may be, with one arc fewer, without a cap. The work lists and the index have just
// enough room, and the path list one entry more than the path has nodes.
fn full_case(out: &impl Print, name: &str, asked: QueryLists) {
    let mut lists = IndexRoom::<ARCS, BEGINS>::unwritten();
    let mut held = lists.lent();
    let _ = index::build(asked.network, &mut held);
    let mut start_labels = [OLD_LABEL; NODES];
    let mut start_neighbours = [OLD_NODE; NODES];
    let mut end_labels = [OLD_LABEL; NODES];
    let mut end_neighbours = [OLD_NODE; NODES];
    let mut states = [OLD_STATE; NODES];
    let mut path = [OLD_NODE; NODES + 1];
    let mut work = Work {
        start_labels: &mut start_labels,
        start_neighbours: &mut start_neighbours,
        end_labels: &mut end_labels,
        end_neighbours: &mut end_neighbours,
        states: &mut states,
        path: &mut path,
    };
    let answer = search::query(asked, held.shown(), &mut work);
    show::answer(out, name, answer);
    let _ = println!(out; "  path nodes in rising order: {}", in_order(work.path));
}

// A chain of as many nodes as there may be, from its first to its last, each arc of the top weight: the largest shortest
// length.
pub fn chain(out: &impl Print) {
    let tails = rising(0);
    let heads = rising(1);
    let asked = QueryLists {
        network: NetworkLists {
            nodes: MOST_NODES,
            tails: &tails,
            heads: &heads,
            weights: &[MOST_WEIGHT; ARCS],
        },
        potentials: Potentials {
            forward: &[0; NODES],
            backward: &[0; NODES],
        },
        start: 0,
        end: LAST,
        pattern: &[0, 1],
    };
    full_case(out, "chain of 2,048 nodes", asked);
}
