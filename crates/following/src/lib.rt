// Following a trace: which threads are permitted, and what their steps use up.
#![tactic(auto)]

pub mod follower;
mod seek;
mod spot;
mod stage;
mod used;
