//! A tag's memory: its four banks, and what Read, Write, BlockWrite and BlockErase do with them
//! (6.3.2.1 and 6.3.2.11.3 of the EPCglobal Class-1 Generation-2 standard, version 1.2.0).
#![tactic(auto)]

mod image;
mod memory;

pub use image::{BankImage, ImageRefusal, epc_fits};
pub use memory::Memory;
