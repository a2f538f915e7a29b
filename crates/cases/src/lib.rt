//! Small cases worked by hand from the rules: tests alone.
#![tactic(auto)]

#[cfg(test)]
mod acts;
#[cfg(test)]
mod long_sheets;
#[cfg(test)]
mod one_byte_ends;
#[cfg(test)]
mod printing;
#[cfg(test)]
mod protocol;
#[cfg(test)]
mod small_caps;
#[cfg(test)]
mod small_maps;
#[cfg(test)]
mod small_polygons;
#[cfg(test)]
mod widest;
