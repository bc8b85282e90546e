// When a search with a cap on its turns stops, and what it then answers (docs/RULES.md, "Capped queries"). It stands by itself,
// with numbers by value and no lists, so that a wrong stop is refused in seconds. A search without a cap is one with a cap that
// always suffices.
#![tactic(auto)]

ghost use Rattle.std.specs.Prelude.{◌≡◌, ◌<◌, ◌^◌, pos, ◌-ℤ◌, ◌≤ℤ◌};
ghost use Rattle.std.specs.Int.Signed.{mag};
ghost use Rattle.nba.specs.Result.{excess_over, or_zero};
ghost use Rattle.steps.specs.Steps.{meant};
ghost use Rattle.cap.specs.Stop.{course_of, with_length, without_length};

use network::{Answer, Figures};
use steps::Candidate;

// How a search goes on after step 2: with a turn, in which the start side may take the first node and the end side the second;
// not at all, since it has ended; or not at all, since the turns are used up.
#[derive(Clone, Copy)]
pub enum Course {
    Turn(u16, u16),
    Ended,
    UsedUp,
}

// Step 2 after so many turns. Whether the search has ended is asked first, so it is asked after the last turn of the cap too.
#[tactic(auto, unfolding(crate::specs::Stop::course_of))]
pub fn next(own: Option<Candidate>, other: Option<Candidate>, turns: usize, cap: usize) -> Course
    ensures { result ≡ course_of (meant own) (meant other) turns cap }
{
    let (Some(a), Some(b)) = (own, other) else {
        return Course::Ended;
    };
    if turns < cap {
        Course::Turn(a.node, b.node)
    } else {
        Course::UsedUp
    }
}

// By how much a length is above a number that is not negative; 0 if it is not above it.
fn above(length: u32, most: i64) -> u32
    requires { pos 0 ≤ℤ most }
    ensures { result ≡ or_zero (pos length -ℤ most) }
{
    (i64::from(length) - most).max(0) as u32
}

// The excess of a best length: `floor` is the start side's floor and `h` its potential of the end, `beyond` the end side's floor
// and `k` its potential of the start.
pub fn excess(length: u32, floor: i64, h: i32, beyond: i64, k: i32) -> u32
    requires { (mag floor < 2 ^ 40) × (mag beyond < 2 ^ 40) }
    ensures { result ≡ excess_over length (floor -ℤ h) (beyond -ℤ k) }
{
    let mine = floor - i64::from(h);
    let theirs = beyond - i64::from(k);
    above(length, mine.max(theirs).max(0))
}

// The answer with a best length: the route, or where the search has not ended a provisional one. Whether it has ended is a yes or
// no, since the rest is the same either way.
#[tactic(auto, unfolding(crate::specs::Stop::with_length))]
pub fn with_length(over: bool, length: u32, excess: u32, nodes: u16, figures: Figures) -> Answer
    ensures { result ≡ with_length over length excess nodes figures }
{
    if over {
        Answer::Route {
            length,
            nodes,
            figures,
        }
    } else {
        Answer::Provisional {
            length,
            excess,
            nodes,
            figures,
        }
    }
}

// The answer with no best length: no route, or where the search has not ended undecided.
#[tactic(auto, unfolding(crate::specs::Stop::without_length))]
pub fn without_length(over: bool, figures: Figures) -> Answer
    ensures { result ≡ without_length over figures }
{
    if over {
        Answer::NoRoute(figures)
    } else {
        Answer::Undecided(figures)
    }
}
