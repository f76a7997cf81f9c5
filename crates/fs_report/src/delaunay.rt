// The answer to `delaunay`.

ghost use Rattle.std.specs.Prelude.{◌≡◌, ◌+◌, ◌*◌, ◌/◌, ◌<◌, ◌≤◌, ◌++◌, false, IfOk, OnOk, length, string_bytes, unsigned_abs};
ghost use Rattle.fs_gluing.specs.Triangulation.{edge_vector};
ghost use Rattle.fs_mesh.specs.Meshes.{IsMesh};
ghost use Rattle.fs_report.specs.DelaunayText.{AnswersDelaunay, IsStopText, undecided_line, delaunay_line, delaunay_text, flip_line, flip_lines, vector_text, face_vectors, face_twins, face_line, face_lines};

use crate::answers::Answer;
use crate::lines::overflow_line;
use crate::vectors::unscaled_text;
use fs_delaunay::{Delaunay, find_delaunay, start};
use fs_fraction::NoMemory;
use fs_gluing::Surface;
use fs_mesh::Mesh;
use fs_plane::Stop;
use std::alloc::{AllocError, Global};

// The answer to `delaunay`, within a budget of flips.
pub fn answer_delaunay(alloc: Global, surface: &Surface, budget: u32) -> Result<Answer, NoMemory>
    requires strict { surface.now.straight ≡ false }
    requires most { budget ≤ 1000000 }
    ensures { IfOk result (λ answer. AnswersDelaunay surface.now budget (string_bytes answer.text) answer.partial) }
{
    let mesh = start(alloc, surface)?;
    match find_delaunay(alloc, mesh, budget) {
        Ok(delaunay) => Ok(Answer {
            text: whole_text(alloc, &delaunay)?,
            partial: false,
        }),
        Err(stop) => stopped(alloc, "delaunay", stop),
    }
}

// The answer, after these words, where the run leads to no Delaunay triangulation.
pub fn stopped(alloc: Global, words: &str, stop: Stop) -> Result<Answer, NoMemory>
    ensures { IfOk result (λ answer. IsStopText stop words.now (string_bytes answer.text) answer.partial) }
{
    match stop {
        Stop::Overflow(site) => Ok(Answer {
            text: overflow_line(alloc, words, &site)?,
            partial: true,
        }),
        Stop::Undecided(flips) => Ok(Answer {
            text: undecided_line(alloc, words, flips)?,
            partial: true,
        }),
        Stop::NoMemory => Err(NoMemory),
    }
}

// The line of a budget of flips that is spent.
fn undecided_line(alloc: Global, words: &str, flips: u32) -> Result<String, AllocError>
    ensures { IfOk result (λ line. string_bytes line ≡ undecided_line words.now flips) }
{
    format!(in alloc; "{words} undecided flips {flips}\n")
}

// The lines of the flips, and of the faces after them.
fn whole_text(alloc: Global, delaunay: &Delaunay<'_>) -> Result<String, NoMemory>
    ensures text { IfOk result (λ text. string_bytes text ≡ delaunay_text (unsigned_abs delaunay.now.mesh.surface.den) delaunay.now.edges delaunay.now.mesh.triangles) }
    ensures mesh { IsMesh delaunay.now.mesh }
{
    let edges = delaunay.edges().as_slice();
    let mesh = delaunay.mesh();
    // A look at the faces makes the invariant of the mesh known here.
    let _ = mesh.faces();
    let mut text = first_line(alloc, edges)?;
    add_flips(&mut text, edges)?;
    add_faces(alloc, &mut text, mesh)?;
    Ok(text)
}

// The line that counts the flips.
fn first_line(alloc: Global, edges: &[u32]) -> Result<String, AllocError>
    ensures { IfOk result (λ line. string_bytes line ≡ delaunay_line edges.now) }
{
    let flips = edges.len();
    format!(in alloc; "delaunay flips {flips}\n")
}

// Adds a line for each flip.
fn add_flips(text: &mut String, edges: &[u32]) -> Result<(), AllocError>
    ensures { OnOk result (string_bytes text.new ≡ string_bytes text.old ++ flip_lines edges.now) }
{
    for edge in edges {
        add_flip(text, *edge)?;
    }
    Ok(())
}

// Adds the line of a flip.
fn add_flip(text: &mut String, edge: u32) -> Result<(), AllocError>
    ensures { OnOk result (string_bytes text.new ≡ string_bytes text.old ++ flip_line edge) }
{
    write!(text, "flip {edge}\n")
}

// Adds a line for each face.
fn add_faces(alloc: Global, text: &mut String, mesh: &Mesh<'_>) -> Result<(), NoMemory>
    ensures { OnOk result (string_bytes text.new ≡ string_bytes text.old
        ++ face_lines (unsigned_abs mesh.now.surface.den) mesh.now.triangles 0 (length mesh.now.triangles.vectors / 3)) }
{
    for f in 0..mesh.faces() {
        add_face(alloc, text, mesh, f)?;
    }
    Ok(())
}

// Adds the line of face f.
fn add_face(alloc: Global, text: &mut String, mesh: &Mesh<'_>, f: u32) -> Result<(), NoMemory>
    requires { 3 * f + 2 < length mesh.now.triangles.vectors }
    ensures { OnOk result (string_bytes text.new ≡ string_bytes text.old ++ face_line (unsigned_abs mesh.now.surface.den) mesh.now.triangles f) }
{
    let vectors = face_vectors(alloc, mesh, f)?;
    let twins = face_twins(alloc, mesh, f)?;
    write!(text, "face {f} {vectors} twins {twins}\n")?;
    Ok(())
}

// The unscaled vectors of the half-edges of face f.
fn face_vectors(alloc: Global, mesh: &Mesh<'_>, f: u32) -> Result<String, NoMemory>
    requires { 3 * f + 2 < length mesh.now.triangles.vectors }
    ensures { IfOk result (λ text. string_bytes text ≡ face_vectors (unsigned_abs mesh.now.surface.den) mesh.now.triangles f) }
{
    // A look at the faces makes the invariant of the mesh known here.
    let _ = mesh.faces();
    let one = vector_text(alloc, mesh, 3 * f)?;
    let two = vector_text(alloc, mesh, 3 * f + 1)?;
    let three = vector_text(alloc, mesh, 3 * f + 2)?;
    let text = format!(in alloc; "{one} {two} {three}")?;
    Ok(text)
}

// The twins of the half-edges of face f.
fn face_twins(alloc: Global, mesh: &Mesh<'_>, f: u32) -> Result<String, AllocError>
    requires { 3 * f + 2 < length mesh.now.triangles.vectors }
    ensures { IfOk result (λ text. string_bytes text ≡ face_twins mesh.now.triangles f) }
{
    // A look at the faces makes the invariant of the mesh known here.
    let _ = mesh.faces();
    let one = mesh.twin(3 * f);
    let two = mesh.twin(3 * f + 1);
    let three = mesh.twin(3 * f + 2);
    format!(in alloc; "{one} {two} {three}")
}

// x,y of the unscaled vector of a half-edge.
fn vector_text(alloc: Global, mesh: &Mesh<'_>, h: u32) -> Result<String, NoMemory>
    requires { h < length mesh.now.triangles.vectors }
    ensures { IfOk result (λ text. string_bytes text ≡ vector_text (unsigned_abs mesh.now.surface.den) (edge_vector mesh.now.triangles h)) }
{
    unscaled_text(alloc, mesh.vector(h), mesh.surface().den())
}
