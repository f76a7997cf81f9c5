// Vectors that are kept in lists, by direction, length and corner.

ghost use Rattle.std.specs.Prelude.{◌≡◌, ◌≢◌, cond, Ok, Err, IfOk, MatchResult};
ghost use Rattle.fs_quadratic.specs.Checked.{place};
ghost use Rattle.fs_plane.specs.Vector.{vector_zero};
ghost use Rattle.fs_plane.specs.Listing.{IsKeepable, is_keepable, keep};

use crate::corners::Corner;
use crate::vector::V2;
use fs_quadratic::{Field, Place};

/// A vector that leads from a corner to another, as it is kept in a list: it isn't 0, and its four parts are at most
/// 2^57 in size. Ordered by the field's d, then by direction, counterclockwise from (1,0), then by length, and then by the
/// corner from which it leads.
#[derive(Clone, Copy, Debug, PartialEq, Eq, Hash)]
pub struct Listed {
    pub(crate) field: Field,
    pub(crate) v: V2,
    pub(crate) start: Corner,
    pub ghost nonzero: { v ≢ vector_zero },
    pub ghost keepable: { IsKeepable v },
}

impl Listed {
    /// The vector v, which isn't 0, from the corner `start`. The error is place 1 to 4, the first of the parts p and q of
    /// x, and p and q of y, that is over 2^57 in size.
    pub fn keep(field: Field, v: V2, start: Corner) -> Result<Listed, Place>
        requires { v ≢ vector_zero }
        ensures field { IfOk result (λ listed. listed.field ≡ field) }
        ensures v { IfOk result (λ listed. listed.v ≡ v) }
        ensures start { IfOk result (λ listed. listed.start ≡ start) }
        ensures which { MatchResult result (λ listed. keep v ≡ Ok v) (λ stop. keep v ≡ Err stop) }
    {
        check_part(1, v.x.p())?;
        check_part(2, v.x.q())?;
        check_part(3, v.y.p())?;
        check_part(4, v.y.q())?;
        Ok(Listed { field, v, start })
    }

    /// The field of the vector's numbers.
    pub fn field(&self) -> Field
        ensures { result ≡ self.now.field }
    {
        self.field
    }

    /// The vector.
    pub fn v(&self) -> V2
        ensures { result ≡ self.now.v }
    {
        self.v
    }

    /// The corner from which it leads.
    pub fn start(&self) -> Corner
        ensures { result ≡ self.now.start }
    {
        self.start
    }
}

// Nothing where a part is at most 2^57 in size, and else the place.
fn check_part(n: u32, part: i128) -> Result<(), Place>
    ensures { result ≡ cond (is_keepable part) (Ok tt) (Err (place n)) }
{
    if part.unsigned_abs() <= 1 << 57 {
        Ok(())
    } else {
        Err(Place(n))
    }
}
