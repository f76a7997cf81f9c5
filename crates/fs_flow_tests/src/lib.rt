// Tests of public calls of fs_iet: surfaces and directions, the letters of their exchanges, and images of positions.
#![tactic(auto)]

#[cfg(test)]
mod common;
#[cfg(test)]
mod exchanges;
#[cfg(test)]
mod image_places;
#[cfg(test)]
mod images;
#[cfg(test)]
mod l_exchanges;
#[cfg(test)]
mod l_images;
#[cfg(test)]
mod large_exchanges;
#[cfg(test)]
mod many_sides;
#[cfg(test)]
mod plans;
#[cfg(test)]
mod sites;
#[cfg(test)]
mod wide_plans;
