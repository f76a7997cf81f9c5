// The lines of faults and of overflows.

ghost use Rattle.std.specs.Prelude.{◌≡◌, IfOk, string_bytes};
ghost use Rattle.fs_report.specs.Text.{fault_words, fault_line, build_line, overflow_line};

use fs_fraction::NoMemory;
use fs_gluing::Fault;
use fs_job::print_site;
use fs_plane::Site;
use std::alloc::{AllocError, Global};

/// The line that names a fault and where it is.
pub fn fault_line(alloc: Global, fault: &Fault) -> Result<String, NoMemory>
    ensures { IfOk result (λ line. string_bytes line ≡ fault_line fault.now) }
{
    let words = fault_words(alloc, *fault)?;
    let line = format!(in alloc; "{words}\n")?;
    Ok(line)
}

// The words of that line, without the line feed.
fn fault_words(alloc: Global, fault: Fault) -> Result<String, AllocError>
    ensures { IfOk result (λ words. string_bytes words ≡ fault_words fault) }
{
    match fault {
        Fault::NotAscii { line } => format!(in alloc; "refused 1 NotAscii line {line}"),
        Fault::BadHeader => format!(in alloc; "refused 2 BadHeader"),
        Fault::BadLine { line } => format!(in alloc; "refused 3 BadLine line {line}"),
        Fault::BadNumber { line } => format!(in alloc; "refused 4 BadNumber line {line}"),
        Fault::BadField => format!(in alloc; "refused 5 BadField"),
        Fault::TooMany { line } => format!(in alloc; "refused 6 TooMany line {line}"),
        Fault::NoEnd => format!(in alloc; "refused 7 NoEnd"),
        Fault::ZeroDirection { line } => format!(in alloc; "refused 8 ZeroDirection line {line}"),
        Fault::Wide { line } => format!(in alloc; "refused 9 Wide line {line}"),
        Fault::FewSides { polygon } => format!(in alloc; "refused 10 FewSides {polygon}"),
        Fault::NotClosed { polygon } => format!(in alloc; "refused 11 NotClosed {polygon}"),
        Fault::NotConvex(corner) => {
            let (polygon, side) = (corner.polygon, corner.side);
            format!(in alloc; "refused 12 NotConvex {polygon}.{side}")
        }
        Fault::TurnsTwice { polygon } => format!(in alloc; "refused 13 TurnsTwice {polygon}"),
        Fault::NoSuchSide { line } => format!(in alloc; "refused 14 NoSuchSide line {line}"),
        Fault::GluedTwice { line } => format!(in alloc; "refused 15 GluedTwice line {line}"),
        Fault::NotOpposite { line } => format!(in alloc; "refused 16 NotOpposite line {line}"),
        Fault::Unglued(side) => {
            let (polygon, side) = (side.polygon, side.side);
            format!(in alloc; "refused 17 Unglued {polygon}.{side}")
        }
        Fault::Apart { polygon } => format!(in alloc; "refused 18 Apart {polygon}"),
        Fault::GroupTooLarge => format!(in alloc; "refused 19 GroupTooLarge"),
        Fault::TooLong => format!(in alloc; "refused 20 TooLong"),
    }
}

/// The line that names the site where building overflowed.
pub fn build_line(alloc: Global, site: &Site) -> Result<String, NoMemory>
    ensures { IfOk result (λ line. string_bytes line ≡ build_line site.now) }
{
    overflow_line(alloc, "build", site)
}

// The line that names the site where a command or building overflowed.
pub(crate) fn overflow_line(alloc: Global, what: &str, site: &Site) -> Result<String, NoMemory>
    ensures { IfOk result (λ line. string_bytes line ≡ overflow_line what.now site.now) }
{
    let site = print_site(alloc, site)?;
    let line = format!(in alloc; "{what} overflow {site}\n")?;
    Ok(line)
}
