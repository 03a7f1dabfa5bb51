//! Shared types and limits, and what a program's run is made of.
#![tactic(auto)]

pub mod abi;
mod act;
mod bytes;
mod call;
mod class;
pub mod elf;
mod elf_fault;
mod ending;
mod fault;
mod format;
mod frames;
mod hart;
mod image;
mod inst;
pub mod limits;
pub mod linux;
mod memory_want;
mod name;
mod point;
mod points;
mod record;
#[cfg(test)]
mod tests;
mod width;

pub use act::{Act, Write};
pub use bytes::Bytes;
pub use call::{Facts, Reply, Request};
pub use class::Class;
pub use elf_fault::ElfFault;
pub use ending::Ending;
pub use fault::{Fault, FaultName};
pub use format::Format;
pub use frames::Frames;
pub use hart::{Frame, Hart, HartState, Reserved, Slot, Waiter};
pub use image::{Cell, Image, Load, Loads, Page, Rights, Span};
pub use inst::{Inst, Op};
pub use memory_want::MemoryWant;
pub use name::Name;
pub use point::{Kind, Point, PointRef, Ret};
pub use points::Points;
pub use record::{Record, Way};
pub use width::Width;
