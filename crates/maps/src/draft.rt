use super::map::Map;

// A map whose pairs are still being collected. Sealing moves the map out, and no pair comes after.
#[derive(Drop)]
pub struct Draft {
    pub(crate) map: Map,
}
