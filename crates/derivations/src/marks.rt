ghost use Rattle.std.specs.Prelude.{◌≡◌, ◌<◌, ◌≤◌, ◌+◌, ℕ, ◌↔◌, ◌⊎◌, length, IfOk, OnOk};
ghost use Rattle.std.specs.List.{All, Contains};
ghost use Rattle.derivations.specs.Facts.{AreRecorded, AreSteps};
ghost use Rattle.derivations.specs.machinery.Marks.{AreCollected, AreMarked, IsMarked};

use crate::notes::Notes;
use base::Memory;
use std::alloc::Global;

/// Marks numbers.
fn mark(marks: &mut [bool], numbers: &[u32])
    requires { All (λ q. q < length marks.old) numbers.now }
    ensures long { length marks.new ≡ length marks.old }
    ensures marked { (m : ℕ) → IsMarked marks.new m ↔ (IsMarked marks.old m ⊎ Contains numbers.now m) }
{
    for number in numbers {
        marks[*number as usize] = true;
    }
}

/// Marks the premises of a fact that is marked. All after it were looked at.
fn spread(notes: &Notes, id: u32, at: u32, marks: &mut [bool])
    requires recorded { AreRecorded notes.now }
    requires there { id < length notes.now }
    requires within { at ≤ id }
    requires marked { AreMarked notes.now id (at + 1) marks.old }
    ensures { AreMarked notes.now id at marks.new }
{
    if !marks[at as usize] {
        return;
    }
    mark(marks, notes.premises(at));
}

/// A vector of `id + 1` marks, of which only the one at `id` is set.
fn first(alloc: Global, id: u32) -> Result<Vec<bool>, Memory>
    ensures long { IfOk result (λ marks. length marks.items ≡ id + 1) }
    ensures marked { IfOk result (λ marks. (m : ℕ) → IsMarked marks.items m ↔ (m ≡ id)) }
{
    let mut marks = vec![in alloc; false; id as usize + 1]?;
    marks[id as usize] = true;
    Ok(marks)
}

/// Marks all on which a fact rests, from the fact down.
fn reached(alloc: Global, notes: &Notes, id: u32) -> Result<Vec<bool>, Memory>
    requires recorded { AreRecorded notes.now }
    requires there { id < length notes.now }
    ensures { IfOk result (λ marks. AreMarked notes.now id 0 marks.items) }
{
    let mut marks = first(alloc, id)?;
    let mut left = id as usize + 1;
    while left > 0 {
        left -= 1;
        spread(notes, id, left as u32, marks.as_mut_slice());
    }
    Ok(marks)
}

/// Adds a number to those that are collected, where it is marked.
fn collect(marks: &[bool], at: u32, steps: &mut Vec<u32>) -> Result<(), Memory>
    requires there { at < length marks.now }
    requires collected { AreCollected marks.now at steps.old.items }
    ensures { OnOk result (AreCollected marks.now (at + 1) steps.new.items) }
{
    if marks[at as usize] {
        steps.push(at)?;
        return Ok(());
    }
    Ok(())
}

/// The facts on which a fact rests, in order of number.
pub(crate) fn steps(alloc: Global, notes: &Notes, id: u32) -> Result<Vec<u32>, Memory>
    requires recorded { AreRecorded notes.now }
    requires there { id < length notes.now }
    ensures { IfOk result (λ steps. AreSteps notes.now id steps.items) }
{
    let marks = reached(alloc, notes, id)?;
    let mut steps = Vec::new(alloc);
    let mut at = 0;
    while at <= id as usize {
        collect(marks.as_slice(), at as u32, &mut steps)?;
        at += 1;
    }
    Ok(steps)
}
