// Tables of properties: books and blocks.
#![tactic(auto)]

pub mod block;
pub mod book;
mod rows;
mod scan;
pub mod table;
pub mod view;
