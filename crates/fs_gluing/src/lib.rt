// Translation surfaces: polygons whose sides are glued in pairs by translations.
#![tactic(auto)]

mod areas;
mod building;
mod faults;
mod glue_lines;
mod limits;
mod partners;
mod polygons;
mod reaching;
mod scaling;
mod sequence;
mod shapes;
mod surfaces;
mod triangulations;

pub use building::build;
pub use faults::{BuildStop, Fault};
pub use limits::{MOST_POLYGONS, MOST_SIDES};
pub use sequence::Sequence;
pub use shapes::{Glue, Point, Shape};
pub use surfaces::{Side, Surface};
pub use triangulations::{Triangles, Way};
