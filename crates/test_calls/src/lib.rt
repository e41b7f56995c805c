//! What no file of rows can say: calls of the libraries, made one by one.
//!
//! The tests are together here, since the gate proves each crate that has tests twice.
#![tactic(auto)]

#[cfg(test)]
mod bench;
#[cfg(test)]
mod captures;
#[cfg(test)]
mod controller;
#[cfg(test)]
mod driver;
#[cfg(test)]
mod findings;
#[cfg(test)]
mod firmware;
#[cfg(test)]
mod judging;
#[cfg(test)]
mod lines;
#[cfg(test)]
mod losses;
#[cfg(test)]
mod lossy_bus;
#[cfg(test)]
mod messages;
#[cfg(test)]
mod names;
#[cfg(test)]
mod observing;
#[cfg(test)]
mod outline;
#[cfg(test)]
mod packets;
#[cfg(test)]
mod programs;
#[cfg(test)]
mod sequence;
#[cfg(test)]
mod talks;
#[cfg(test)]
mod transfers;
