// The texts of sites.

ghost use Rattle.std.specs.Prelude.{◌≡◌, IfOk, string_bytes};
ghost use Rattle.fs_job.specs.SiteText.{site_text, with_number, with_two, with_three};

use fs_fraction::NoMemory;
use fs_plane::Site;
use std::alloc::Global;

/// The name of a site and its numbers, as they are printed after `overflow`.
pub fn print_site(alloc: Global, site: &Site) -> Result<String, NoMemory>
    ensures { IfOk result (λ text. string_bytes text ≡ site_text site.now) }
{
    match *site {
        Site::Scale {
            polygon,
            side,
            place,
        } => name_three(alloc, "scale", polygon, side, place),
        Site::Close {
            polygon,
            side,
            place,
        } => name_three(alloc, "close", polygon, side, place),
        Site::Corner {
            polygon,
            side,
            place,
        } => name_three(alloc, "corner", polygon, side, place),
        Site::Area {
            polygon,
            corner,
            place,
        } => name_three(alloc, "area", polygon, corner, place),
        Site::AreaScale { place } => name_number(alloc, "areascale", place),
        Site::Grid { place } => name_number(alloc, "grid", place),
        Site::Enter { place } => name_number(alloc, "enter", place),
        Site::Walk { crossings, place } => name_two(alloc, "walk", crossings, place),
        Site::Circle { flips, edge, place } => name_three(alloc, "circle", flips, edge, place),
        Site::Flip { flips, edge, place } => name_three(alloc, "flip", flips, edge, place),
        Site::Bound { place } => name_number(alloc, "bound", place),
        Site::First { half_edge, place } => name_two(alloc, "first", half_edge, place),
        Site::Fan { word, place } => name_two(alloc, "fan", word, place),
        Site::Keep { vector, place } => name_two(alloc, "keep", vector, place),
        Site::Home { ray, place } => name_two(alloc, "home", ray, place),
        Site::Letter {
            polygon,
            side,
            place,
        } => name_three(alloc, "letter", polygon, side, place),
        Site::Shift {
            polygon,
            side,
            place,
        } => name_three(alloc, "shift", polygon, side, place),
        Site::Event { event, place } => name_two(alloc, "event", event, place),
        Site::Value { component, place } => name_two(alloc, "value", component, place),
        Site::TableScale { side, place } => name_two(alloc, "tscale", side, place),
        Site::TableClose { side, place } => name_two(alloc, "tclose", side, place),
        Site::TableCorner { side, place } => name_two(alloc, "tcorner", side, place),
        Site::Reflect { side, place } => name_two(alloc, "reflect", side, place),
        Site::Product {
            product,
            side,
            place,
        } => name_three(alloc, "product", product, side, place),
        Site::Copy { copy, side, place } => name_three(alloc, "copy", copy, side, place),
    }
}

// A name and one number.
fn name_number(alloc: Global, name: &str, place: u32) -> Result<String, NoMemory>
    ensures { IfOk result (λ text. string_bytes text ≡ with_number name.now place) }
{
    Ok(format!(in alloc; "{name} {place}")?)
}

// A name and two numbers.
fn name_two(alloc: Global, name: &str, one: u32, place: u32) -> Result<String, NoMemory>
    ensures { IfOk result (λ text. string_bytes text ≡ with_two name.now one place) }
{
    Ok(format!(in alloc; "{name} {one} {place}")?)
}

// A name and three numbers.
fn name_three(alloc: Global, name: &str, one: u32, two: u32, place: u32) -> Result<String, NoMemory>
    ensures { IfOk result (λ text. string_bytes text ≡ with_three name.now one two place) }
{
    Ok(format!(in alloc; "{name} {one} {two} {place}")?)
}
