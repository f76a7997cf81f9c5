// How a straight path begins at a corner.

ghost use Rattle.std.specs.Prelude.{◌≡◌};
ghost use Rattle.fs_develop.specs.Entering.{enter, enter_along};

use fs_plane::steps::{cross_after, dot_after, norm_after};
use fs_plane::{Place, V2};
use fs_quadratic::Field;
use std::cmp::Ordering;

// How a path begins at a corner: not in the corner's sector; along the side that begins there, where it
// ends with the side, before its end, or after it; or strictly inside the sector.
#[derive(Clone, Copy, Debug, PartialEq, Eq)]
pub enum Entry {
    Outside,
    WholeSide,
    WithinSide,
    BeyondSide,
    Inside,
}

// How the path along v begins at a corner with these sides.
#[tactic(auto, unfolding(crate::specs::Entering::enter))]
pub fn enter(field: Field, outgoing: V2, incoming: V2, v: V2) -> Result<Entry, Place>
    ensures { result ≡ enter field.d outgoing incoming v }
{
    let turn = cross_after(0, field, outgoing, v)?;
    match field.sign(turn) {
        Ordering::Less => Ok(Entry::Outside),
        Ordering::Equal => {
            let ahead = dot_after(3, field, outgoing, v)?;
            if field.sign(ahead) == Ordering::Greater {
                enter_along(field, outgoing, v)
            } else {
                Ok(Entry::Outside)
            }
        }
        Ordering::Greater => {
            let left = cross_after(6, field, v, incoming.neg())?;
            if field.sign(left) == Ordering::Greater {
                Ok(Entry::Inside)
            } else {
                Ok(Entry::Outside)
            }
        }
    }
}

// How a path along the outgoing side goes on.
#[tactic(auto, unfolding(crate::specs::Entering::enter_along))]
fn enter_along(field: Field, outgoing: V2, v: V2) -> Result<Entry, Place>
    ensures { result ≡ enter_along field.d outgoing v }
{
    if v == outgoing {
        return Ok(Entry::WholeSide);
    }
    let path = norm_after(9, field, v)?;
    let side = norm_after(12, field, outgoing)?;
    if field.cmp(path, side) == Ordering::Less {
        Ok(Entry::WithinSide)
    } else {
        Ok(Entry::BeyondSide)
    }
}
