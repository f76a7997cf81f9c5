// The cells of a triangulation: the classes of faces that are joined by edges of circle value 0.

ghost use Rattle.std.specs.Prelude.{◌≡◌, ◌↔◌, ◌+◌, ◌*◌, ◌<◌, ◌≤◌, ◌/◌, ◌^◌, ℕ, Some, None, IsTrue, [], ◌∷◌, ◌++◌, length, replicate, IfOk, OnOk, slice_set};
ghost use Rattle.fs_quadratic.specs.Ring.{zero};
ghost use Rattle.fs_gluing.specs.Triangulation.{IsEdge};
ghost use Rattle.fs_mesh.specs.Meshes.{IsMesh, edge_circle};
ghost use Rattle.fs_delaunay.specs.Cells.{AreCells};
ghost use Rattle.fs_delaunay.specs.CheckedRuns.{AllPass};
ghost use Rattle.fs_delaunay.specs.CellNumbers.{number_of, cell_at, AreNumbered, GetNumbers, AreCellNumbers, AreDealt};

use fs_fraction::NoMemory;
use fs_gluing::Sequence;
use fs_mesh::Mesh;
use fs_quadratic::Elem;
use std::alloc::{AllocError, Global};

/// The cells of a mesh whose edges are all legal: the classes of faces that are joined by edges of circle value
/// 0, each in ascending order, in the order of their first faces. The only error is out of memory. The cost is
/// linear in the number of faces.
pub fn find_cells(alloc: Global, mesh: &Mesh) -> Result<Sequence<Sequence<u32>>, NoMemory>
    requires legal { AllPass mesh.now.surface.d mesh.now.triangles }
    ensures cells { IfOk result (λ cells. AreCells mesh.now.surface.d mesh.now.triangles cells) }
{
    let numbers = number_faces(alloc, mesh)?;
    let cells = deal(alloc, &numbers)?;
    Ok(Sequence::from_vec(cells))
}

// The number of each face's cell.
fn number_faces(alloc: Global, mesh: &Mesh) -> Result<Vec<Option<u32>>, AllocError>
    requires legal { AllPass mesh.now.surface.d mesh.now.triangles }
    ensures numbers { IfOk result (λ numbers. AreCellNumbers mesh.now.surface.d mesh.now.triangles numbers.items) }
    ensures few { IfOk result (λ numbers. length numbers.items < 2 ^ 32) }
{
    let faces = mesh.faces();
    let mut numbers = no_numbers(alloc, faces)?;
    let mut count = 0u32;
    for face in 0..faces {
        if numbers[face as usize].is_none() {
            number_cell(alloc, mesh, face, count, &mut numbers)?;
            count += 1;
        }
    }
    Ok(numbers)
}

// No numbers yet, for so many faces.
fn no_numbers(alloc: Global, faces: u32) -> Result<Vec<Option<u32>>, AllocError>
    ensures { IfOk result (λ numbers. numbers.items ≡ replicate faces None) }
{
    let mut numbers = Vec::with_capacity(alloc, faces as usize)?;
    for _face in 0..faces {
        numbers.push(None)?;
    }
    Ok(numbers)
}

// Gives a number to the faces of the cell of a face that has none, where the faces before it have theirs.
fn number_cell(
    alloc: Global,
    mesh: &Mesh,
    first: u32,
    number: u32,
    numbers: &mut Vec<Option<u32>>,
) -> Result<(), AllocError>
    requires mesh { IsMesh mesh.now }
    requires legal { AllPass mesh.now.surface.d mesh.now.triangles }
    requires before { AreNumbered mesh.now.surface.d mesh.now.triangles first number number numbers.old.items [] 0 0 }
    requires there { first < length numbers.old.items }
    requires fresh { number_of numbers.old.items first ≡ None }
    ensures after { OnOk result (AreNumbered mesh.now.surface.d mesh.now.triangles (first + 1) (number + 1) (number + 1) numbers.new.items [] 0 0) }
{
    numbers[first as usize] = Some(number);
    let mut waiting = Vec::new(alloc);
    waiting.push(first)?;
    while let Some(face) = waiting.pop() {
        visit(mesh, face, number, numbers, &mut waiting)?;
    }
    Ok(())
}

// Gives this number to the faces that are joined to a face and have none. They wait for their own visit.
fn visit(
    mesh: &Mesh,
    face: u32,
    number: u32,
    numbers: &mut Vec<Option<u32>>,
    waiting: &mut Vec<u32>,
) -> Result<(), AllocError>
    requires mesh { IsMesh mesh.now }
    requires legal { AllPass mesh.now.surface.d mesh.now.triangles }
    requires long { 3 * length numbers.old.items ≡ length mesh.now.triangles.vectors }
    requires numbered { number_of numbers.old.items face ≡ Some number }
    ensures numbers { OnOk result (GetNumbers numbers.old.items numbers.new.items waiting.old.items waiting.new.items) }
    ensures visited { OnOk result ((n : ℕ) → AreNumbered mesh.now.surface.d mesh.now.triangles n number (number + 1) numbers.old.items waiting.old.items (3 * face) (3 * face + 3)
        → AreNumbered mesh.now.surface.d mesh.now.triangles n number (number + 1) numbers.new.items waiting.new.items 0 0) }
{
    for h in 3 * face..3 * face + 3 {
        cross(mesh, h, number, numbers, waiting)?;
    }
    Ok(())
}

// Gives this number to the face across a half-edge, where the edge joins the two faces and that face has none.
fn cross(
    mesh: &Mesh,
    h: u32,
    number: u32,
    numbers: &mut Vec<Option<u32>>,
    waiting: &mut Vec<u32>,
) -> Result<(), AllocError>
    requires mesh { IsMesh mesh.now }
    requires legal { AllPass mesh.now.surface.d mesh.now.triangles }
    requires there { h < length mesh.now.triangles.vectors }
    requires long { 3 * length numbers.old.items ≡ length mesh.now.triangles.vectors }
    requires numbered { number_of numbers.old.items (h / 3) ≡ Some number }
    ensures numbers { OnOk result (GetNumbers numbers.old.items numbers.new.items waiting.old.items waiting.new.items) }
    ensures crossed { OnOk result ((n to : ℕ) → AreNumbered mesh.now.surface.d mesh.now.triangles n number (number + 1) numbers.old.items waiting.old.items h to
        → AreNumbered mesh.now.surface.d mesh.now.triangles n number (number + 1) numbers.new.items waiting.new.items (h + 1) to) }
{
    if !joins_faces(mesh, h) {
        return Ok(());
    }
    let other = mesh.twin(h) / 3;
    if numbers[other as usize].is_some() {
        return Ok(());
    }
    numbers[other as usize] = Some(number);
    waiting.push(other)?;
    Ok(())
}

// Whether the edge of a half-edge joins its two faces: its circle value is 0.
fn joins_faces(mesh: &Mesh, h: u32) -> bool
    requires mesh { IsMesh mesh.now }
    requires legal { AllPass mesh.now.surface.d mesh.now.triangles }
    requires there { h < length mesh.now.triangles.vectors }
    ensures { IsTrue result ↔ (edge_circle mesh.now.surface.d mesh.now.triangles h ≡ zero) }
{
    match mesh.circle_of(edge_of(mesh, h)) {
        Ok(value) => is_zero(value),
        Err(_) => false,
    }
}

// Whether a number is 0.
fn is_zero(x: Elem) -> bool
    ensures { IsTrue result ↔ (x ≡ zero) }
{
    x == Elem::ZERO
}

// The lesser half-edge of the edge of a half-edge, which names the edge.
fn edge_of(mesh: &Mesh, h: u32) -> u32
    requires mesh { IsMesh mesh.now }
    requires there { h < length mesh.now.triangles.vectors }
    ensures edge { IsEdge mesh.now.triangles result }
    ensures circle { edge_circle mesh.now.surface.d mesh.now.triangles result ≡ edge_circle mesh.now.surface.d mesh.now.triangles h }
{
    let twin = mesh.twin(h);
    if h < twin {
        return h;
    }
    twin
}

// For each number the list of its faces.
fn deal(alloc: Global, numbers: &[Option<u32>]) -> Result<Vec<Sequence<u32>>, AllocError>
    requires few { length numbers.now < 2 ^ 32 }
    requires each { (x : ℕ) → x < length numbers.now → (j : ℕ) × (number_of numbers.now x ≡ Some j) }
    requires order { (x j i : ℕ) → number_of numbers.now x ≡ Some j → i < j → (y : ℕ) × y < x × (number_of numbers.now y ≡ Some i) }
    ensures { IfOk result (λ cells. AreDealt numbers.now (length numbers.now) cells.items) }
{
    let mut cells = Vec::new(alloc);
    for (face, number) in numbers.iter().enumerate() {
        match *number {
            Some(number) => add(alloc, &mut cells, number, face as u32)?,
            None => {}
        }
    }
    Ok(cells)
}

// Adds a face to the list of this number, which may be the next list.
fn add(
    alloc: Global,
    cells: &mut Vec<Sequence<u32>>,
    number: u32,
    face: u32,
) -> Result<(), AllocError>
    requires { number ≤ length cells.old.items }
    ensures next { OnOk result (number ≡ length cells.old.items → cells.new.items ≡ cells.old.items ++ (face ∷ []) ∷ []) }
    ensures longer { OnOk result (number < length cells.old.items → cells.new.items ≡ slice_set cells.old.items number (cell_at cells.old.items number ++ face ∷ [])) }
{
    if number as usize == cells.len() {
        let mut list = Sequence::new(alloc);
        list.push(face)?;
        cells.push(list)?;
        return Ok(());
    }
    cells[number as usize].push(face)?;
    Ok(())
}
