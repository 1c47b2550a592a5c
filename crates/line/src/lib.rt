// One line of a task text, read at a place, and put at a place; a page of lines; and the lines of a refusal.
#![tactic(auto)]

pub mod page;
pub mod put;
pub mod read;
pub mod refused;
