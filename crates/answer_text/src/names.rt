//! Names, which stand between bars where they are no simple symbols.

ghost use Rattle.std.specs.Prelude.{◌≡◌, ◌++◌, OnOk};
ghost use Rattle.std.specs.List.{list_all};
ghost use Rattle.base.specs.Bytes.{is_symbol_byte};
ghost use Rattle.answer_text.specs.Names.{is_simple, is_bare, name_text};

use base::{Memory, is_digit, is_symbol_byte};
use term_check::is_reserved;

fn is_simple(name: &[u8]) -> bool
    ensures { result ≡ is_simple name.now }
{
    match name {
        [] => false,
        [first, ..] => !is_digit(*first),
    }
}

fn has_symbol_bytes(name: &[u8]) -> bool
    ensures { result ≡ list_all is_symbol_byte name.now }
{
    name.iter().all(|byte| is_symbol_byte(*byte))
}

/// Whether the name needs no bars.
#[tactic(auto, unfolding(crate::specs::Names::is_bare))]
fn is_bare(name: &[u8]) -> bool
    ensures { result ≡ is_bare name.now }
{
    is_simple(name) && has_symbol_bytes(name) && !is_reserved(name)
}

pub fn push_name(out: &mut Vec<u8>, name: &[u8]) -> Result<(), Memory>
    ensures { OnOk result (out.new.items ≡ out.old.items ++ name_text name.now) }
{
    if is_bare(name) {
        out.extend_from_slice(name)?;
    } else {
        out.extend_from_slice(b"|")?;
        out.extend_from_slice(name)?;
        out.extend_from_slice(b"|")?;
    }
    Ok(())
}
