//! The first layer of a sheet: places, items that borrow from a line, numerals, and the line that
//! items make up.
#![tactic(auto)]

mod item;
mod lexer;
mod line;
mod numerals;
mod parse;

pub use item::{Place, Placed};
pub use line::{Kind, Line};
pub use numerals::number;
pub use parse::read_line;
