//! What the program is given of the outside: a source, a sink, a tree of files and a gate.
//!
//! Each of the first three tells what it holds, where it can, and counts its faults: a call answers `Failed` only where that
//! count rose. The fakes in memory tell all they hold; the adapters over std's streams and folders tell nothing but their counts.
//! Nothing here knows what the bytes mean.
#![tactic(auto)]

mod calls;
mod folder_tree;
mod gate;
mod listing;
mod memory_sink;
mod memory_source;
mod memory_tree;
mod sink;
mod source;
mod std_streams;
mod tree;

pub use folder_tree::FolderTree;
pub use gate::{Gate, OpenGate, Point};
pub use memory_sink::MemSink;
pub use memory_source::SureSource;
pub use memory_tree::{MemTree, is_file_map};
pub use sink::Sink;
pub use source::{Failed, Source};
pub use std_streams::{StdSink, StdSource};
pub use tree::{Content, Entry, Listing, Tree, TreeFault};

#[cfg(test)]
mod tables;
