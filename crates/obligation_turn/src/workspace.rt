//! What turns after one another keep, so that it needn't be found again.

ghost use Rattle.std.specs.Prelude.{◌≡◌, ◌<◌, true, Some, vec_len, IfSome, OnOk};
ghost use Rattle.std.specs.List.{slice_set};
ghost use Rattle.clause_form.specs.System.{Clauses};
ghost use Rattle.chc_tokens.specs.Tokens.{is_seen};
ghost use Rattle.obligation_turn.specs.Workspaces.{IsWorkspaceFor};

use base::Memory;
use chc_tokens::Seen;
use std::alloc::Global;
use step_rules::Lent;

/// What turns after one another keep: for lemmas, by their numbers, the last instance that was found to
/// break them with its body in the frame of their level. It is looked at each time whether it still
/// does. A workspace is for the turns of one book, and an empty one serves as well.
#[derive(Drop)]
pub struct Workspace {
    pub(crate) kept: Vec<Option<Seen>>,
}

/// Makes room for the lemma of that number.
fn make_room(work: &mut Workspace, id: u32) -> Result<(), Memory>
    ensures work { (sys : Clauses) → IsWorkspaceFor sys work.old → IsWorkspaceFor sys work.new }
    ensures there { OnOk result (id < vec_len work.new.kept) }
{
    'room: while work.kept.len() <= id as usize {
        work.kept.push(None)?;
    }
    Ok(())
}

/// Puts the instance into its place.
fn put(work: &mut Workspace, id: u32, seen: Seen)
    requires { id < vec_len work.old.kept }
    ensures { work.new.kept.items ≡ slice_set work.old.kept.items id (Some seen) }
{
    work.kept[id as usize] = Some(seen);
}

impl Workspace {
    /// Nothing is kept yet.
    pub fn new(alloc: Global) -> Workspace
        ensures { (sys : Clauses) → IsWorkspaceFor sys result }
    {
        Workspace {
            kept: Vec::new(alloc),
        }
    }

    /// The instance that is kept for the lemma of that number.
    pub(crate) fn seen_of(&self, id: u32) -> Option<&Seen>
        ensures { (sys : Clauses) → IsWorkspaceFor sys self.now → IfSome result (λ seen. is_seen sys seen.now ≡ true) }
    {
        match self.kept.get(id as usize) {
            Some(Some(seen)) => Some(seen),
            Some(None) => None,
            None => None,
        }
    }

    /// Keeps the instance for the lemma of that number.
    pub(crate) fn keep(&mut self, lent: &Lent, id: u32, seen: Seen) -> Result<(), Memory>
        requires work { IsWorkspaceFor lent.now.system self.old }
        requires seen { is_seen lent.now.system seen ≡ true }
        ensures { IsWorkspaceFor lent.now.system self.new }
    {
        let _system = lent.system;
        make_room(self, id)?;
        put(self, id, seen);
        Ok(())
    }
}
