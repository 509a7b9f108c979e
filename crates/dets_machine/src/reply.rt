//! The replies to commands.
ghost use Rattle.std.specs.Prelude.{◌≡◌, ◌≤◌, length, IfOk};
ghost use Rattle.std.specs.Str.{chars};
ghost use Rattle.dets_term.specs.TermValue.{atom, chain, nil};
ghost use Rattle.dets_term.specs.Parts.{deepest};
ghost use Rattle.run_model.specs.Reply.{ok, ok_table};

use crate::Memory;
use dets_term::{Term, TermList, within_limits};
use std::alloc::Global;

/// `{ok,table}`
pub(crate) fn ok_table(alloc: Global) -> Result<Term, Memory>
    ensures { IfOk result (λ reply. reply ≡ ok_table) }
{
    let mut parts = TermList::new(alloc);
    parts.push(ok(alloc)?)?;
    parts.push(word(alloc, "table")?)?;
    within_limits(Term::tuple(parts))
}

/// `ok`
pub(crate) fn ok(alloc: Global) -> Result<Term, Memory>
    ensures { IfOk result (λ reply. reply ≡ ok) }
{
    word(alloc, "ok")
}

/// The list of the objects of a key, none or one.
pub(crate) fn list(found: TermList) -> Result<Term, Memory>
    requires few { length found ≤ 1 }
    requires shallow { deepest found ≤ 255 }
    ensures { IfOk result (λ reply. reply ≡ chain found nil) }
{
    within_limits(Term::list(found))
}

/// The atom of a short word.
fn word(alloc: Global, text: &str) -> Result<Term, Memory>
    requires { length text.now ≤ 255 }
    ensures { IfOk result (λ reply. reply ≡ atom (chars text.now)) }
{
    within_limits(Term::atom(alloc, text))
}
