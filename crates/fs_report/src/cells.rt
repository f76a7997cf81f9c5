// The answer to `cells`.

ghost use Rattle.std.specs.Prelude.{◌≡◌, ◌≤◌, ◌++◌, ℕ, List, false, IfOk, OnOk, codes, length, string_bytes};
ghost use Rattle.std.specs.Fmt.{decimal};
ghost use Rattle.fs_mesh.specs.Meshes.{IsMesh};
ghost use Rattle.fs_delaunay.specs.Cells.{AreCells};
ghost use Rattle.fs_report.specs.DelaunayText.{AnswersCells, cells_text, cells_line, spaced_numbers, cell_line, cell_lines};

use crate::answers::Answer;
use crate::delaunay::stopped;
use fs_delaunay::{Delaunay, cells, find_delaunay, start};
use fs_fraction::NoMemory;
use fs_gluing::{Sequence, Surface};
use std::alloc::{AllocError, Global};

// The answer to `cells`, within a budget of flips.
pub fn answer_cells(alloc: Global, surface: &Surface, budget: u32) -> Result<Answer, NoMemory>
    requires strict { surface.now.straight ≡ false }
    requires most { budget ≤ 1000000 }
    ensures { IfOk result (λ answer. AnswersCells surface.now budget (string_bytes answer.text) answer.partial) }
{
    let mesh = start(alloc, surface)?;
    match find_delaunay(alloc, mesh, budget) {
        Ok(delaunay) => Ok(Answer {
            text: cells_text(alloc, &delaunay)?,
            partial: false,
        }),
        Err(stop) => stopped(alloc, "cells", stop),
    }
}

// The lines of the cells of a Delaunay triangulation.
fn cells_text(alloc: Global, delaunay: &Delaunay<'_>) -> Result<String, NoMemory>
    ensures text { IfOk result (λ text. (cells : List (List ℕ)) × AreCells delaunay.now.mesh.surface.d delaunay.now.mesh.triangles cells
        × (string_bytes text ≡ cells_text delaunay.now.edges cells)) }
    ensures mesh { IsMesh delaunay.now.mesh }
{
    // A look at the faces makes the invariant of the mesh known here.
    let _ = delaunay.mesh().faces();
    let cells = cells(alloc, delaunay)?;
    let text = whole_text(alloc, delaunay.edges().as_slice().len(), cells.as_slice())?;
    Ok(text)
}

// The lines of these cells, after so many flips.
fn whole_text(alloc: Global, flips: usize, cells: &[Sequence<u32>]) -> Result<String, AllocError>
    ensures { IfOk result (λ text. string_bytes text ≡ cells_line (length cells.now) flips ++ cell_lines 0 cells.now) }
{
    let mut text = first_line(alloc, cells.len(), flips)?;
    add_cells(&mut text, cells)?;
    Ok(text)
}

// The line that counts the cells and the flips.
fn first_line(alloc: Global, cells: usize, flips: usize) -> Result<String, AllocError>
    ensures { IfOk result (λ line. string_bytes line ≡ cells_line cells flips) }
{
    format!(in alloc; "cells {cells} flips {flips}\n")
}

// Adds a line for each cell.
fn add_cells(text: &mut String, cells: &[Sequence<u32>]) -> Result<(), AllocError>
    ensures { OnOk result (string_bytes text.new ≡ string_bytes text.old ++ cell_lines 0 cells.now) }
{
    for (c, faces) in cells.iter().enumerate() {
        add_cell(text, c, faces.as_slice())?;
    }
    Ok(())
}

// Adds the line of cell c.
fn add_cell(text: &mut String, c: usize, faces: &[u32]) -> Result<(), AllocError>
    ensures { OnOk result (string_bytes text.new ≡ string_bytes text.old ++ cell_line c faces.now) }
{
    write!(text, "cell {c} faces")?;
    add_numbers(text, faces)?;
    text.push('\n')
}

// Adds numbers, each after a space.
fn add_numbers(text: &mut String, numbers: &[u32]) -> Result<(), AllocError>
    ensures { OnOk result (string_bytes text.new ≡ string_bytes text.old ++ spaced_numbers numbers.now) }
{
    for number in numbers {
        add_number(text, *number)?;
    }
    Ok(())
}

// Adds a number after a space.
fn add_number(text: &mut String, number: u32) -> Result<(), AllocError>
    ensures { OnOk result (string_bytes text.new ≡ string_bytes text.old ++ (codes " " ++ decimal number)) }
{
    write!(text, " {number}")
}
