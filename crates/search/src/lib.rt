// The route query over lists that the caller lends, with an index of its arcs. It tests the query by the table of docs/RULES.md,
// "Refusal numbers"; a refusal comes before anything is written. An accepted query is searched as `nba` defines it, turn for turn,
// on the first entries of the lists, to its end or as far as a cap on its turns. The index is where the arcs of a node are found.
#![tactic(auto)]

ghost use Rattle.std.specs.Prelude.{◌≡◌, ◌≤◌, Ok, length};
ghost use Rattle.network.specs.Lists.{query_asked};
ghost use Rattle.network.specs.Front.{at_front};
ghost use Rattle.index.specs.Lists.{index_of};
ghost use Rattle.index.specs.Table.{indexed_verdict};
ghost use Rattle.tables.specs.Tables.{Long};
ghost use Rattle.run.specs.Run.{Searchable};
ghost use Rattle.search.specs.Demands.{CappedKept, QueryKept};
ghost use Rattle.search.specs.Lists.{lists_of, SameWork};
ghost use Rattle.search.specs.Promise.{left, lengths, lent_lists, search_leaves_at};
ghost use Rattle.search.specs.Answered.{SearchedInPlace, ToBeAnswered, answer_read, path_read};

use index::IndexLists;
use network::{Answer, Lent, QueryLists};
use run::Stop;
use tables::SideLists;

// The lists that a caller lends: the labels and the neighbours of each side, the states and the path.
#[derive(Drop)]
pub struct Work<'a> {
    pub start_labels: &'a mut [u32],
    pub start_neighbours: &'a mut [u16],
    pub end_labels: &'a mut [u32],
    pub end_neighbours: &'a mut [u16],
    pub states: &'a mut [u8],
    pub path: &'a mut [u16],
}

impl Work<'_> {
    // How long they are.
    fn lent(&self) -> Lent
        ensures { result ≡ lengths (lists_of self.now) }
    {
        Lent {
            start_labels: self.start_labels.len(),
            start_neighbours: self.start_neighbours.len(),
            end_labels: self.end_labels.len(),
            end_neighbours: self.end_neighbours.len(),
            states: self.states.len(),
            path: self.path.len(),
        }
    }
}

// What is answered where a search stopped, read off its tables. With no best length the path list is left alone.
#[tactic(auto, unfolding(crate::specs::Answered::answer_read, crate::specs::Answered::path_read, network::specs::Front::at_front))]
fn answered(
    asked: QueryLists,
    start_neighbours: &[u16],
    end_neighbours: &[u16],
    states: &[u8],
    path: &mut [u16],
    stop: Stop,
) -> Answer
    requires { ToBeAnswered (query_asked asked) start_neighbours.now end_neighbours.now states.now path.old stop }
    ensures value { result ≡ answer_read (query_asked asked.entry) start_neighbours.now end_neighbours.now states.now stop }
    ensures path_after { path.new ≡ at_front (path_read (query_asked asked.entry) start_neighbours.now end_neighbours.now stop) path.old }
{
    let p = stop.progress;
    let length = p.best.length;
    let figures = tables::count_states(states);
    if steps::MISSING <= length {
        return cap::without_length(stop.over, figures);
    }
    let start = asked.start;
    let end = asked.end;
    let nodes = tables::write_path(
        path,
        start_neighbours,
        end_neighbours,
        start,
        end,
        p.best.node,
    );
    let excess = cap::excess(
        length,
        p.floor,
        asked.potentials.forward[end as usize],
        p.beyond,
        asked.potentials.backward[start as usize],
    );
    cap::with_length(stop.over, length, excess, nodes, figures)
}

// The search of an accepted query at a cap, on lists with exactly one entry a node and a path list with room for as many.
// The lists are handed over one by one: a struct of lists cut to size was tried, and the proof did not close, since the check does
// not see what a list holds that is cut as it goes into a struct.
fn searched(
    asked: QueryLists,
    held: IndexLists<&[u16]>,
    cap: u16,
    start_labels: &mut [u32],
    start_neighbours: &mut [u16],
    end_labels: &mut [u32],
    end_neighbours: &mut [u16],
    states: &mut [u8],
    path: &mut [u16],
) -> Answer
    requires searchable { Searchable (query_asked asked) (index_of held) }
    requires long { Long asked.network.nodes start_labels.old start_neighbours.old end_labels.old end_neighbours.old states.old }
    requires path_long { asked.network.nodes ≤ length path.old }
    ensures { SearchedInPlace
        (query_asked asked.entry)
        cap
        path.old
        result
        (lent_lists start_labels.new start_neighbours.new end_labels.new end_neighbours.new states.new path.new) }
{
    let mut start_side = SideLists {
        labels: start_labels,
        neighbours: start_neighbours,
    };
    let mut end_side = SideLists {
        labels: end_labels,
        neighbours: end_neighbours,
    };
    let stop = run::find(
        asked,
        held,
        cap as usize,
        &mut start_side,
        &mut end_side,
        states,
    );
    answered(asked, start_neighbours, end_neighbours, states, path, stop)
}

// The search of a query that is accepted already, at a cap: for a caller that has tested its network once and each trip by itself.
// What it asks is exactly that the table accepts the query.
#[tactic(auto, using(crate::proofs::AnswerLaws::searchable_if, crate::proofs::AnswerLaws::room_if))]
pub fn search_accepted(
    asked: QueryLists,
    held: IndexLists<&[u16]>,
    cap: u16,
    work: &mut Work,
) -> Answer
    requires { indexed_verdict (query_asked asked) (index_of held) (lengths (lists_of work.old)) ≡ Ok tt }
    ensures kept { left result (lists_of work.new) ≡ search_leaves_at (query_asked asked.entry) cap (lists_of work.old) }
    ensures same { SameWork work.old work.new }
{
    let n = asked.network.nodes as usize;
    searched(
        asked,
        held,
        cap,
        &mut work.start_labels[..n],
        &mut work.start_neighbours[..n],
        &mut work.end_labels[..n],
        &mut work.end_neighbours[..n],
        &mut work.states[..n],
        work.path,
    )
}

// The query at a cap: tested by the whole table, and searched if it is accepted.
pub fn capped_query(
    asked: QueryLists,
    held: IndexLists<&[u16]>,
    cap: u16,
    work: &mut Work,
) -> Answer
    ensures kept { CappedKept (query_asked asked.entry) (index_of held.entry) cap (lists_of work.old) (lists_of work.new) result }
    ensures same { SameWork work.old work.new }
{
    if let Err(cause) = index::check_query(asked, held, work.lent()) {
        return Answer::Refused(cause);
    }
    search_accepted(asked, held, cap, work)
}

// The query without a cap: no search makes more turns than there are nodes.
#[tactic(auto, using(crate::specs::CappedLaws::capped_query_kept))]
pub fn query(asked: QueryLists, held: IndexLists<&[u16]>, work: &mut Work) -> Answer
    ensures kept { QueryKept (query_asked asked.entry) (index_of held.entry) (lists_of work.old) (lists_of work.new) result }
    ensures same { SameWork work.old work.new }
{
    capped_query(asked, held, asked.network.nodes, work)
}
