//! Tests of the top call and of a machine's own calls, over devices in memory.
#![tactic(auto)]

#[cfg(test)]
mod audits;
#[cfg(test)]
mod budget;
#[cfg(test)]
mod case;
#[cfg(test)]
mod commits;
#[cfg(test)]
mod driven;
#[cfg(test)]
mod expected;
#[cfg(test)]
mod given;
#[cfg(test)]
mod harts;
#[cfg(test)]
mod image;
#[cfg(test)]
mod logs;
#[cfg(test)]
mod meeting;
#[cfg(test)]
mod nested;
#[cfg(test)]
mod other_commands;
#[cfg(test)]
mod pages;
#[cfg(test)]
mod ports;
#[cfg(test)]
mod programs;
#[cfg(test)]
mod refusals;
#[cfg(test)]
mod replay;
#[cfg(test)]
mod rescues;
#[cfg(test)]
mod seeds;
#[cfg(test)]
mod server;
#[cfg(test)]
mod stretches;
#[cfg(test)]
mod threads;
#[cfg(test)]
mod tries;
