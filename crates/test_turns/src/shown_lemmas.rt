//! The lemmas of a book, and cubes, as texts.

use base::Memory;
use chc_core::Book;
use cube_forms::Cube;
use lin_atoms::{Lin, Lit};
use std::alloc::Global;

fn shown_lin(alloc: Global, lin: &Lin) -> Result<String, Memory> {
    let mut shown = String::new(alloc);
    for (place, coefficient) in lin.terms() {
        shown.push_str(&format!(in alloc; "{coefficient:+}x{place}")?)?;
    }
    let constant = lin.constant();
    shown.push_str(&format!(in alloc; "{constant:+}")?)?;
    Ok(shown)
}

fn shown_lit(alloc: Global, lit: &Lit) -> Result<String, Memory> {
    let shown = match lit {
        Lit::Le(lin) => {
            let lin = shown_lin(alloc, lin)?;
            format!(in alloc; " le {lin}")?
        }
        Lit::Eq(lin) => {
            let lin = shown_lin(alloc, lin)?;
            format!(in alloc; " eq {lin}")?
        }
        Lit::Div(by, lin) => {
            let (by, lin) = (by.get(), shown_lin(alloc, lin)?);
            format!(in alloc; " div {by} {lin}")?
        }
        Lit::NDiv(by, lin) => {
            let (by, lin) = (by.get(), shown_lin(alloc, lin)?);
            format!(in alloc; " ndiv {by} {lin}")?
        }
    };
    Ok(shown)
}

fn shown_cube(alloc: Global, lits: &[Lit]) -> Result<String, Memory> {
    let mut text = String::new(alloc);
    for lit in lits {
        let lit = shown_lit(alloc, lit)?;
        text.push_str(lit.as_str())?;
    }
    Ok(text)
}

/// Of each lemma its predicate, its level and the literals of the cube that it denies.
pub(crate) fn shown_lemmas(alloc: Global, book: &Book) -> Result<String, Memory> {
    let frames = book.frames();
    let mut text = String::new(alloc);
    for id in 0..frames.count() {
        let (pred, level) = (frames.pred_of(id), frames.level_of(id));
        let cube = shown_cube(alloc, frames.lemma(id).cube().lits())?;
        text.push_str(&format!(in alloc; "{pred} at {level}:{cube}; ")?)?;
    }
    Ok(text)
}

/// Cubes, one behind the other.
pub(crate) fn shown_cubes(alloc: Global, cubes: &[Cube]) -> Result<String, Memory> {
    let mut text = String::new(alloc);
    for cube in cubes {
        let cube = shown_cube(alloc, cube.lits())?;
        text.push_str(&format!(in alloc; "{cube};")?)?;
    }
    Ok(text)
}
