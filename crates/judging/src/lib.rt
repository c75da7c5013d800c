// Judging: the refusals 20 to 26 (RULES.md, 7) of a request that was read, found without a write.
#![tactic(auto)]

mod collecting;
mod judging;

pub use judging::judge;
