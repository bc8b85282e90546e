// The index of arcs by node (docs/RULES.md, "The index"), over lists that the caller lends: it is built from the arcs, kept up as
// an arc is edited, and tested with a query by the whole refusal table. A refusal comes before anything is written.
#![tactic(auto)]

ghost use Rattle.std.specs.Prelude.{◌≡◌, Ok};
ghost use Rattle.network.specs.Lists.{network_of, query_asked};
ghost use Rattle.index.specs.Index.{short_index};
ghost use Rattle.index.specs.Kept.{BuildKept, EditKept};
ghost use Rattle.index.specs.Lists.{index_of, index_in, network_in, SameArcs, SameIndex};
ghost use Rattle.index.specs.Table.{build_verdict, change_asked, held_verdict, indexed_verdict};

use network::{Cause, Lent, NetworkLists, QueryLists};

// The four lists of an index, lent to be looked at or lent to be written.
#[derive(Clone, Copy, Drop)]
pub struct IndexLists<L> {
    pub out_arcs: L,
    pub out_begins: L,
    pub in_arcs: L,
    pub in_begins: L,
}

// The lists of arcs that may be edited: for each arc its tail, its head and its weight.
#[derive(Drop)]
pub struct Arcs<'a> {
    pub tails: &'a mut [u16],
    pub heads: &'a mut [u16],
    pub weights: &'a mut [u32],
}

impl Arcs<'_> {
    // The network of so many nodes with these arcs, to be looked at.
    fn network(&self, nodes: u16) -> NetworkLists<'_>
        ensures nodes { result.nodes ≡ nodes }
        ensures tails { result.tails.now ≡ self.now.tails.now }
        ensures heads { result.heads.now ≡ self.now.heads.now }
        ensures weights { result.weights.now ≡ self.now.weights.now }
    {
        NetworkLists {
            nodes,
            tails: self.tails,
            heads: self.heads,
            weights: self.weights,
        }
    }
}

impl IndexLists<&mut [u16]> {
    // The same lists, to be looked at.
    pub fn shown(&self) -> IndexLists<&[u16]>
        ensures { index_of result ≡ index_in self.now }
    {
        IndexLists {
            out_arcs: self.out_arcs,
            out_begins: self.out_begins,
            in_arcs: self.in_arcs,
            in_begins: self.in_begins,
        }
    }
}

// An edit: the arc of this number gets this tail, head and weight.
#[derive(Clone, Copy)]
pub struct Change {
    pub number: u16,
    pub tail: u16,
    pub head: u16,
    pub weight: u32,
}

// Test 6, of an index: each list of arcs has room for an entry an arc, each list of begins for an entry a node and one more.
#[tactic(auto, unfolding(crate::specs::Index::short_index, crate::specs::Index::short_way))]
fn is_short(network: NetworkLists, held: IndexLists<&[u16]>) -> bool
    ensures { result ≡ short_index (network_of network.entry) (index_of held.entry) }
{
    let nodes = network.nodes as usize;
    let arcs = network.tails.len();
    held.out_arcs.len() < arcs
        || held.out_begins.len() <= nodes
        || held.in_arcs.len() < arcs
        || held.in_begins.len() <= nodes
}

// Tests 1, 2, 6 and 7: the arcs, and the room of an index.
#[tactic(auto, using(crate::specs::JudgedLaws::build_parts))]
fn check_listable(network: NetworkLists, held: IndexLists<&[u16]>) -> Result<(), Cause>
    ensures { result ≡ build_verdict (network_of network.entry) (index_of held.entry) }
{
    network::check_arcs(network, is_short(network, held))
}

// Tests 1, 2, 6, 7 and 20: the arcs, and an index that is what they build.
fn check_held(network: NetworkLists, held: IndexLists<&[u16]>) -> Result<(), Cause>
    ensures { result ≡ held_verdict (network_of network.entry) (index_of held.entry) }
{
    check_listable(network, held)?;
    let nodes = network.nodes;
    if !listing::is_listed(network.tails, nodes, held.out_arcs, held.out_begins) {
        return Err(Cause::WrongIndex);
    }
    if !listing::is_listed(network.heads, nodes, held.in_arcs, held.in_begins) {
        return Err(Cause::WrongIndex);
    }
    Ok(())
}

// The whole table for a query over an index: accepted, or the first number that holds, with its place. What a test before has
// passed passes again, so the first refusal here is the table's.
#[tactic(auto, using(crate::specs::JudgedLaws::indexed_parts), unfolding(network::specs::Refusal::first_refusal))]
pub fn check_query(query: QueryLists, held: IndexLists<&[u16]>, lent: Lent) -> Result<(), Cause>
    ensures { result ≡ indexed_verdict (query_asked query.entry) (index_of held.entry) lent }
{
    let network = query.network;
    network::check_lists(network, query.potentials)?;
    network::check_trip(network.nodes, query.start, query.end, query.pattern, lent)?;
    check_held(network, held)?;
    network::check_network(network, query.potentials)
}

// The index of the arcs, from the first entries of its lists on. In time proportional to nodes plus arcs.
pub fn build(network: NetworkLists, built: &mut IndexLists<&mut [u16]>) -> Result<(), Cause>
    ensures kept { BuildKept (network_of network.entry) (index_in built.old) (index_in built.new) result }
    ensures same { SameIndex built.old built.new }
{
    check_listable(network, built.shown())?;
    let nodes = network.nodes;
    listing::list_arcs(network.tails, nodes, built.out_arcs, built.out_begins);
    listing::list_arcs(network.heads, nodes, built.in_arcs, built.in_begins);
    Ok(())
}

// Tests 19 and 7 of an edit: there is such an arc, and its new ends are nodes and its new weight is not too large.
#[tactic(auto, unfolding(crate::specs::Table::change_asked, network::specs::Refusal::first_refusal))]
fn check_change(nodes: u16, arcs: usize, change: Change) -> Result<(), Cause>
    ensures { result ≡ change_asked nodes arcs change }
{
    let number = change.number;
    if arcs <= number as usize {
        return Err(Cause::NoSuchArc(number));
    }
    if nodes <= change.tail || nodes <= change.head || network::MOST_WEIGHT < change.weight {
        return Err(Cause::BadArc(number));
    }
    Ok(())
}

// One arc edited, for a caller that knows that its index is right: many edits need not pay for the test each time. What it asks is
// exactly that what is there passes the table.
pub fn edit_known(
    nodes: u16,
    arcs: &mut Arcs,
    held: &mut IndexLists<&mut [u16]>,
    change: Change,
) -> Result<(), Cause>
    requires { held_verdict (network_in nodes arcs.old) (index_in held.old) ≡ Ok tt }
    ensures kept { EditKept change (network_in nodes arcs.old) (index_in held.old) (network_in nodes arcs.new) (index_in held.new) result }
    ensures same_arcs { SameArcs arcs.old arcs.new }
    ensures same_index { SameIndex held.old held.new }
{
    check_change(nodes, arcs.tails.len(), change)?;
    let number = change.number;
    let known = arcs.network(nodes);
    relist::relist(
        known.tails,
        nodes,
        held.out_arcs,
        held.out_begins,
        number,
        change.tail,
    );
    relist::relist(
        known.heads,
        nodes,
        held.in_arcs,
        held.in_begins,
        number,
        change.head,
    );
    let a = number as usize;
    arcs.tails[a] = change.tail;
    arcs.heads[a] = change.head;
    arcs.weights[a] = change.weight;
    Ok(())
}

// One arc edited: its tail, head and weight become the new ones, and the index becomes what the arcs build then.
pub fn edit(
    nodes: u16,
    arcs: &mut Arcs,
    held: &mut IndexLists<&mut [u16]>,
    change: Change,
) -> Result<(), Cause>
    ensures kept { EditKept change (network_in nodes arcs.old) (index_in held.old) (network_in nodes arcs.new) (index_in held.new) result }
    ensures same_arcs { SameArcs arcs.old arcs.new }
    ensures same_index { SameIndex held.old held.new }
{
    check_held(arcs.network(nodes), held.shown())?;
    edit_known(nodes, arcs, held, change)
}
