// The answer to `stratum`.

ghost use Rattle.std.specs.Prelude.{◌≡◌, ◌≤◌, ◌++◌, ℕ, List, IfOk, OnOk, codes, if◌then◌else◌, length, string_bytes};
ghost use Rattle.std.specs.Fmt.{decimal};
ghost use Rattle.std.specs.List.{AllByRecursion};
ghost use Rattle.fs_stratum.specs.declared.cones.Cone.{Cone};
ghost use Rattle.fs_stratum.specs.VertexList.{AreVertices, IsGenus, HasGenus};
ghost use Rattle.fs_gluing.specs.Surface.{GluedPolygons, IsSurface};
ghost use Rattle.fs_report.specs.Orders.{AreOrders};
ghost use Rattle.fs_report.specs.Text.{AnswersStratum, with_commas, stratum_line, stratum_text, vertex_line, vertex_lines};

use crate::answers::Answer;
use crate::areas::find_area;
use crate::lines::overflow_line;
use fs_fraction::{Frac, NoMemory, print_number};
use fs_gluing::{Sequence, Surface};
use fs_stratum::{Cone, classes, genus};
use std::alloc::{AllocError, Global};

// The answer to `stratum`.
pub fn answer_stratum(alloc: Global, surface: &Surface) -> Result<Answer, NoMemory>
    ensures { IfOk result (λ answer. AnswersStratum surface.now (string_bytes answer.text) answer.partial) }
{
    match find_area(surface) {
        Ok(area) => Ok(Answer {
            text: whole_text(alloc, surface, area)?,
            partial: false,
        }),
        Err(site) => Ok(Answer {
            text: overflow_line(alloc, "stratum", &site)?,
            partial: true,
        }),
    }
}

// The lines where the area is known.
fn whole_text(alloc: Global, surface: &Surface, area: Frac) -> Result<String, NoMemory>
    ensures { IfOk result (λ text. (cones : List Cone) × (orders : List ℕ) × (g : ℕ)
        × AreVertices surface.now cones × AreOrders cones orders × IsGenus surface.now (length cones) g
        × (string_bytes text ≡ stratum_text orders g cones area)) }
{
    let cones = classes(alloc, surface)?;
    let cones = cones.as_slice();
    let orders = find_orders(alloc, cones)?;
    let mut text = first_line(alloc, orders.as_slice(), genus(cones), cones.len(), area)?;
    add_vertices(&mut text, cones)?;
    Ok(text)
}

// The orders k - 1 of the vertices, descending.
fn find_orders(alloc: Global, cones: &[Cone]) -> Result<Sequence<u32>, AllocError>
    requires { AllByRecursion (λ cone. 1 ≤ cone.k) cones.now }
    ensures { IfOk result (λ orders. AreOrders cones.now orders) }
{
    let mut orders = Vec::new(alloc);
    for cone in cones {
        orders.push(cone.k - 1)?;
    }
    orders.sort_unstable();
    orders.reverse();
    Ok(Sequence::from_vec(orders))
}

// The line of all but the vertices.
fn first_line(
    alloc: Global,
    orders: &[u32],
    genus: u32,
    vertices: usize,
    area: Frac,
) -> Result<String, NoMemory>
    ensures { IfOk result (λ line. string_bytes line ≡ stratum_line orders.now genus vertices area) }
{
    let orders = with_commas(alloc, orders)?;
    let area = print_number(alloc, area)?;
    let line = format!(in alloc;
        "stratum H({orders}) genus {genus} vertices {vertices} area {area}\n"
    )?;
    Ok(line)
}

// The numbers with commas between them.
fn with_commas(alloc: Global, numbers: &[u32]) -> Result<String, AllocError>
    ensures { IfOk result (λ text. string_bytes text ≡ with_commas numbers.now) }
{
    let mut text = String::new(alloc);
    for (i, number) in numbers.iter().enumerate() {
        add_number(&mut text, i == 0, *number)?;
    }
    Ok(text)
}

// Adds a number, and a comma before it where it isn't the first.
fn add_number(text: &mut String, first: bool, number: u32) -> Result<(), AllocError>
    ensures { OnOk result (string_bytes text.new ≡ string_bytes text.old ++ (if first then decimal number else codes "," ++ decimal number)) }
{
    if first {
        write!(text, "{number}")
    } else {
        write!(text, ",{number}")
    }
}

// Adds a line for each vertex.
fn add_vertices(text: &mut String, cones: &[Cone]) -> Result<(), AllocError>
    ensures { OnOk result (string_bytes text.new ≡ string_bytes text.old ++ vertex_lines cones.now) }
{
    for cone in cones {
        add_vertex(text, cone)?;
    }
    Ok(())
}

// Adds the line of a vertex.
fn add_vertex(text: &mut String, cone: &Cone) -> Result<(), AllocError>
    ensures { OnOk result (string_bytes text.new ≡ string_bytes text.old ++ vertex_line cone.now) }
{
    let (polygon, side, k) = (cone.first.polygon, cone.first.side, cone.k);
    write!(text, "vertex {polygon}.{side} turns {k}\n")
}
