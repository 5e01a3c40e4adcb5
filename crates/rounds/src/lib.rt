// The rank words of packed rules, by rounds until nothing changes. Promised is that the words are the paper's of the rules' edges. Assumes nothing.
#![tactic(auto)]

pub mod packed;
mod round;
mod settle;
pub mod words;
