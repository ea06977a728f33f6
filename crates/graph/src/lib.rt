// Graphs of 1 to 256 nodes with weighted edges, the valley file, and which edges belong to the lightest net.
#![tactic(auto)]

pub mod build;
pub mod edge;
pub mod edge_list;
pub mod end_marks;
pub mod fault;
pub mod item;
pub mod items;
pub mod lookup;
pub mod mark;
pub mod mark_file;
pub mod reach;
pub mod text;
pub mod theorems;
pub mod valley_file;
pub mod verdict;
