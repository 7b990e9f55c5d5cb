//! Rows of tests of missions and machines, of flights on threads, and of the top call, with rogues and probes of the
//! tests' own.
#![tactic(auto)]

#[cfg(test)]
mod calling;
#[cfg(test)]
mod entries;
#[cfg(test)]
mod faults;
#[cfg(test)]
mod heard;
#[cfg(test)]
mod landing;
#[cfg(test)]
mod machines;
#[cfg(test)]
mod missions;
#[cfg(test)]
mod stated;
#[cfg(test)]
mod storms;
#[cfg(test)]
mod workers;
