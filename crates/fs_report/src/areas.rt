// The unscaled area of a surface.

ghost use Rattle.std.specs.Prelude.{◌≡◌, ◌<ℤ◌, pos, IfOk, IfErr, unsigned_abs};
ghost use Rattle.fs_fraction.specs.Arithmetic.{product, ProductFits};
ghost use Rattle.fs_plane.specs.declared.sites.Site.TheVariants.{AreaScale};
ghost use Rattle.fs_report.specs.Area.{GivesArea, IsUnscaled};

use fs_fraction::{Frac, mul};
use fs_gluing::Surface;
use fs_plane::Site;
use fs_quadratic::{Elem, Field};

// The unscaled area of a surface, or the first site where it overflows.
pub fn find_area(surface: &Surface) -> Result<Frac, Site>
    ensures { GivesArea surface.now result }
{
    let twice = surface.twice_area()?;
    unscale(surface.field(), twice, surface.den())
}

// Half of a number over the square of another.
fn unscale(field: Field, twice: Elem, den: i128) -> Result<Frac, Site>
    requires { pos 0 <ℤ den }
    ensures { IsUnscaled field.d twice (unsigned_abs den) result }
{
    let inverse = Frac::new(Elem::new(1, 0), den);
    let once = scale_at(1, field, Frac::new(twice, 2), inverse)?;
    scale_at(2, field, once, inverse)
}

// The product of two fractions, or the site with this place where it overflows.
fn scale_at(place: u32, field: Field, x: Frac, y: Frac) -> Result<Frac, Site>
    ensures ok { IfOk result (λ z. ProductFits field.d x y × (z ≡ product field.d x y)) }
    ensures err { IfErr result (λ site. (¬ ProductFits field.d x y) × (site ≡ AreaScale place)) }
{
    mul(field, x, y).map_err(|_| Site::AreaScale { place })
}
