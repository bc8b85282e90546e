// The tables of a search before its first turn and after its last, and the marks of taken nodes in them. A search works on lists
// that its caller lends: here they are set to the beginning of a search (docs/RULES.md, step 1), and after its last turn the
// figures are counted from the states that it left and the path is written from the neighbours. No turn is made here, so that the
// turn's own code is about turns alone. Each list has one entry a node, but the path's may be longer. What has two sides is one
// function: the caller hands over the side, or the lists of it.
#![tactic(auto)]

ghost use Rattle.std.specs.Prelude.{◌≡◌, ◌≤◌, ◌<◌, [], ◌∷◌, length, set, replicate};
ghost use Rattle.network.specs.Network.{most_nodes};
ghost use Rattle.nba.specs.State.{missing, no_node, undecided};
ghost use Rattle.nba.specs.Result.{figures_in, path_through, trail};
ghost use Rattle.network.specs.Front.{at_front};
ghost use Rattle.tables.specs.Tables.{Long, FirstTables, together, Countable, NodesBelow, PathRoom};
ghost use Rattle.tables.specs.Sides.{SameLists};

use network::Figures;
use steps::{MISSING, UNDECIDED};

// The marks are numbers since they stand in lists that the caller lends: docs/RULES.md, "The end of a search", says which.

// A missing neighbour, and a missing meeting node.
pub const NO_NODE: u16 = 65535;

// The state of a node that a side has taken: opened or rejected.
pub const OPENED_BY_START: u8 = 1;

pub const REJECTED_BY_START: u8 = 2;

pub const OPENED_BY_END: u8 = 3;

pub const REJECTED_BY_END: u8 = 4;

// What one side of a search keeps, in two lists that the caller lends, each with one entry a node. A node's label is the least
// length known so far between the side's source and the node, and its neighbour is the next node from it towards the source at
// that length; either may be missing. The start side's source is the start, the end side's is the end.
#[derive(Drop)]
pub struct SideLists<'a> {
    pub labels: &'a mut [u32],
    pub neighbours: &'a mut [u16],
}

impl SideLists<'_> {
    // Step 1, of one side: the label of the side's own source is 0, and all other labels and all neighbours are missing.
    pub fn begin_at(&mut self, home: u16)
        requires { home < length self.old.labels.now }
        ensures same_lists { SameLists self.old self.new }
        ensures labels { self.new.labels.now ≡ set (replicate (length self.old.labels.now) missing) home 0 }
        ensures neighbours { self.new.neighbours.now ≡ replicate (length self.old.neighbours.now) no_node }
    {
        self.labels.fill(MISSING);
        self.labels[home as usize] = 0;
        self.neighbours.fill(NO_NODE);
    }
}

// Step 1: every table of a search at its beginning.
pub fn begin(
    start: u16,
    end: u16,
    start_side: &mut SideLists,
    end_side: &mut SideLists,
    states: &mut [u8],
)
    requires long { Long (length states.old) start_side.old.labels.now start_side.old.neighbours.now end_side.old.labels.now end_side.old.neighbours.now states.old }
    requires start_in_bounds { (start < length states.old) × (end < length states.old) }
    ensures start_lists { SameLists start_side.old start_side.new }
    ensures end_lists { SameLists end_side.old end_side.new }
    ensures tables { FirstTables (length states.old) start end start_side.new.labels.now start_side.new.neighbours.now end_side.new.labels.now end_side.new.neighbours.now states.new }
{
    start_side.begin_at(start);
    end_side.begin_at(end);
    states.fill(UNDECIDED);
}

// The figures with one node more. Any state but undecided is that of a node that left; a state above 4, which no search
// leaves, counts for nothing else.
fn counted(figures: Figures, state: u8) -> Figures
    requires { Countable figures }
    ensures { result ≡ together figures (figures_in (state ∷ [])) }
{
    Figures {
        turns: figures.turns + u16::from(UNDECIDED != state),
        opened_by_start: figures.opened_by_start + u16::from(OPENED_BY_START == state),
        opened_by_end: figures.opened_by_end + u16::from(OPENED_BY_END == state),
        rejected: figures.rejected
            + (u16::from(REJECTED_BY_START == state) + u16::from(REJECTED_BY_END == state)),
    }
}

// The figures: each is the count of states in the table, and turns is the number of nodes that left.
pub fn count_states(states: &[u8]) -> Figures
    requires { length states.now ≤ most_nodes }
    ensures { result ≡ figures_in states.now }
{
    let mut figures = Figures {
        turns: 0,
        opened_by_start: 0,
        opened_by_end: 0,
        rejected: 0,
    };
    for &state in states {
        figures = counted(figures, state);
    }
    figures
}

// The nodes after `from`, from neighbour to neighbour as far as the side's source, are written from the first entry on; the
// answer is how many they are. There are fewer of them than nodes, so that they end at the source.
fn write_trail(path: &mut [u16], neighbours: &[u16], home: u16, from: u16) -> usize
    requires nodes_below { NodesBelow (length neighbours.now) (from ∷ trail neighbours.now home (length neighbours.now) from) }
    requires few { length (trail neighbours.now home (length neighbours.now) from) < length neighbours.now }
    requires room { length (trail neighbours.now home (length neighbours.now) from) ≤ length path.old }
    ensures value { result ≡ length (trail neighbours.now home (length neighbours.now) from) }
    ensures path_after { path.new ≡ at_front (trail neighbours.now home (length neighbours.now) from) path.old }
{
    let mut node = from;
    for (count, entry) in path.iter_mut().enumerate() {
        if node == home {
            return count;
        }
        node = neighbours[node as usize];
        *entry = node;
    }
    path.len()
}

// The path goes from the meeting node back along start-side neighbours to the start, and on along end-side neighbours to
// the end. The path list holds it from its first entry; the answer is how many nodes it has. The start side's neighbours lead
// from the meeting node to the start, so what they give is turned round.
#[tactic(auto, using(crate::specs::TablesLaws::path_length, std::proofs::lemmas::Grind::common_steps))]
pub fn write_path(
    path: &mut [u16],
    start_neighbours: &[u16],
    end_neighbours: &[u16],
    start: u16,
    end: u16,
    meeting: u16,
) -> u16
    requires { PathRoom path.old start_neighbours.now end_neighbours.now start end meeting }
    ensures value { result ≡ length (path_through start_neighbours.now end_neighbours.now start end meeting) }
    ensures path_after { path.new ≡ at_front (path_through start_neighbours.now end_neighbours.now start end meeting) path.old }
{
    let before = write_trail(path, start_neighbours, start, meeting);
    path[..before].reverse();
    path[before] = meeting;
    let next = before + 1;
    let after = write_trail(&mut path[next..], end_neighbours, end, meeting);
    (next + after) as u16
}
