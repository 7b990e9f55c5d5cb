//! Rows of tests that call the lowest crates, and those of tasks and their code, as their users do. Those of missions and
//! flights stand in `sift_top_rows`.
#![tactic(auto)]

#[cfg(test)]
mod agree;
#[cfg(test)]
mod base;
#[cfg(test)]
mod buffer;
#[cfg(test)]
mod code;
#[cfg(test)]
mod fixture;
#[cfg(test)]
mod io;
#[cfg(test)]
mod machine;
#[cfg(test)]
mod parse;
#[cfg(test)]
mod pilots;
#[cfg(test)]
mod pool;
#[cfg(test)]
mod registers;
#[cfg(test)]
mod rogue;
#[cfg(test)]
mod texts;
