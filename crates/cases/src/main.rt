// The cases (docs/RULES.md, "Cases"), run: P1 to P12, cases at caps, indexes, those that are run and not proved, and lines of
// district frames. What the program writes is compared with the file `stdout`; what that says of P1 to P12, of caps and of indexes
// an independent program reckons too. Its files serve a program that edits many indexes, too (tests/independent/README.md).
#![tactic(auto)]

mod bounds;
mod indexes;
mod lines;
mod searches;
mod show;

fn main(rt: HostRuntime) {
    searches::p_cases(&rt);
    searches::caps(&rt);
    indexes::builds(&rt);
    searches::chain(&rt);
    bounds::node_counts(&rt);
    bounds::arc_counts(&rt);
    bounds::patterns(&rt);
    lines::district(&rt);
    lines::others(&rt);
}
