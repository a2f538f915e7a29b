//! Maps of regions: a draft takes pairs that touch, and is sealed into a map that takes none.
#![tactic(auto)]

mod draft;
mod drafting;
mod map;
mod reading;

pub use draft::Draft;
pub use drafting::map_of;
pub use map::Map;
