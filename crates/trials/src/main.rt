// Tries the public calls: the examples and limits of 01, and random small sets against a search that shares nothing with them.
#![tactic(auto)]

mod buffers;
mod build;
mod calls;
mod case;
mod cursor;
mod examples;
mod families;
mod group;
mod judge;
mod least;
mod limits;
mod marks;
mod outcome;
mod paths;
mod random;
mod refusals;
mod replay;
mod rounds;
mod rule;
mod score;
mod search;
mod small;
mod spoilt;
mod steps;
mod subject;
mod told;
mod trial;
mod words;

use score::Score;

fn main() {
    let mut score = Score::new();
    examples::try_examples(&mut score);
    limits::try_limits(&mut score);
    refusals::try_refusals(&mut score);
    trial::try_sets(&mut score);
    score.print();
}
