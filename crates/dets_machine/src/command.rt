//! The commands that are built.
ghost use Rattle.std.specs.Prelude.{◌≡◌, ◌<◌, [], ◌∷◌, None, IfSome, IfNone, option_map};
ghost use Rattle.std.specs.Option.{option_copied};
ghost use Rattle.std.specs.Str.{bytes_eq, chars};
ghost use Rattle.dets_term.specs.TermValue.{tuple, chain, nil, depth};
ghost use Rattle.run_model.specs.Command.{name_of};
ghost use Rattle.run_model.specs.Step.{is_empty_list, is_filled_tuple};
ghost use Rattle.run_model.specs.InMemory.{command_of, operation};
ghost use Rattle.dets_machine.specs.Command.{asked_by, IsBelow};

use dets_term::{Node, Term};

/// A command, with what it borrows from its term. Each has the client's name in front, an atom.
#[derive(Clone, Copy)]
pub(crate) enum Command<'a> {
    /// `{Client,open,[]}`
    Open,
    /// `{Client,insert,Object}`: an object is a tuple of at least one element.
    Insert(&'a Term),
    /// `{Client,lookup,Key}`
    Lookup(&'a Term),
}

/// The command that a term is, if it is one that is built.
pub(crate) fn command_of(term: &Term) -> Option<Command<'_>>
    ensures built { option_map asked_by result ≡ command_of term.now }
    ensures shallow { IfSome result (IsBelow 256) }
{
    let _levels = term.depth();
    let (client, op, argument) = three_parts(term)?;
    name_of(client)?;
    operation(name_of(op)?, argument)
}

/// The command of an operation and its argument.
fn operation<'a>(name: &str, argument: &'a Term) -> Option<Command<'a>>
    requires { depth argument.now < 256 }
    ensures built { option_map asked_by result ≡ operation (chars name.now) argument.now }
    ensures shallow { IfSome result (IsBelow 256) }
{
    if is_word(name, "open") && is_empty_list(argument) {
        Some(Command::Open)
    } else if is_word(name, "insert") && is_filled_tuple(argument) {
        Some(Command::Insert(argument))
    } else if is_word(name, "lookup") {
        Some(Command::Lookup(argument))
    } else {
        None
    }
}

/// Whether a name is this word.
fn is_word(name: &str, word: &str) -> bool
    ensures { result ≡ bytes_eq (chars name.now) (chars word.now) }
{
    name == word
}

/// The elements of a tuple of three.
fn three_parts(term: &Term) -> Option<(&Term, &Term, &Term)>
    ensures parts { IfSome result
        (λ parts. term.now ≡ tuple (chain (parts.0.now ∷ parts.1.now ∷ parts.2.now ∷ []) nil)) }
    ensures other { IfNone result (command_of term.now ≡ None) }
{
    match term.node() {
        Node::Tuple(parts) if parts.len() == 3 => {
            Some((parts.get(0)?, parts.get(1)?, parts.get(2)?))
        }
        _ => None,
    }
}

/// The characters of an atom.
fn name_of(term: &Term) -> Option<&str>
    ensures { option_map chars (option_copied result) ≡ name_of term.now }
{
    match term.node() {
        Node::Atom(name) => Some(name.as_str()),
        _ => None,
    }
}

fn is_empty_list(term: &Term) -> bool
    ensures { result ≡ is_empty_list term.now }
{
    match term.node() {
        Node::List(parts) => parts.len() == 0,
        _ => false,
    }
}

/// Whether a term is a tuple of at least one element.
fn is_filled_tuple(term: &Term) -> bool
    ensures { result ≡ is_filled_tuple term.now }
{
    match term.node() {
        Node::Tuple(parts) => parts.len() > 0,
        _ => false,
    }
}
