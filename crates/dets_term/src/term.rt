ghost use Rattle.std.specs.Prelude.{suc, ◌≡◌, ◌<◌, ◌*◌, ◌+◌, ◌↔◌, false, cond, nat_lt, length, Ok, Err, IfOk, IfErr, OnErr, IsErrOf, ◌⊎◌};
ghost use Rattle.std.specs.Option.{option_copied};
ghost use Rattle.std.specs.Str.{chars};
ghost use Rattle.term_model.specs.TermValue.{integer, atom, tuple, nil, chain, elements, is_list, depth, key};
ghost use Rattle.term_model.specs.IsTerm.{IsTerm, limited, built, bits_built};
ghost use Rattle.term_model.specs.BitString.{MayUse};
ghost use Rattle.term_model.specs.Pairs.{map_built};
ghost use Rattle.dets_term.specs.Parts.{deepest, AreTerms};
ghost use Rattle.dets_term.specs.Node.{shown, IsSound};
ghost use Rattle.term_model.specs.declared.term_fault.TermFault.TheVariants.{LongAtom, Memory as OutOfMemory};

use crate::text::char_count;
use crate::{ByteList, Memory, PairList, TermFault, TermList, Text};
use std::alloc::Global;
use std::marker::Model;

/// What a term is made of.
#[cycle(term)]
#[derive(Drop)]
pub enum Node {
    Int(i128),
    Atom(Text),
    Tuple(TermList),
    /// The keys ascend.
    Map(PairList),
    List(TermList),
    /// The elements, at least one, and the tail, which is no list.
    Improper(TermList, Box<Term>),
    /// The bytes, and how many bits of the last one are used, from the highest: 1 to 8, and 8 where there is no
    /// byte. Unused bits are zero.
    Bits(ByteList, u8),
}

/// A term within its limits: at most 256 levels, fewer than 2^32 parts or bytes in each node, at most 255
/// characters in an atom.
#[cycle(term)]
pub struct Term {
    pub(crate) node: Node,
}

/// In one function, so that code that may drop a term stays small.
impl Drop for Term {
    #[cycle(term)]
    fn drop(self) {
        let Term { node: _ } = self;
    }
}

const MAX_DEPTH: u32 = 256;

const MAX_PARTS: usize = 0xFFFF_FFFF;

const MAX_ATOM: usize = 255;

impl Model for Term {
    ghost use Rattle.std.specs.Prelude.{◌≡◌, ◌*◌};
    ghost use Rattle.term_model.specs.TermValue.{TermValue, depth};
    ghost use Rattle.dets_term.specs.TermCode.{coded_term};

    ghost Value = { TermValue };

    ghost coded = { coded_term };

    ghost use Rattle.term_model.specs.IsTerm.{IsTerm};
    ghost use Rattle.dets_term.specs.Node.{shown, IsSound};

    ghost view = { λ a. shown a.node };

    ghost invariant = { λ a. IsTerm (shown a.node) × IsSound a.node };

    ghost size = { λ t. 2 * depth t };

    ghost use Rattle.dets_term.specs.NodeFalls.{deep_le-depth};

    ghost size_decreases = { λ a h. deep_le-depth a.node h.1 };
}

impl Term {
    pub fn int(v: i128) -> Term
        ensures { result ≡ integer v }
    {
        Term { node: Node::Int(v) }
    }

    /// `LongAtom` above 255 characters.
    pub fn atom(alloc: Global, text: &str) -> Result<Term, TermFault>
        ensures made { IfOk result (λ t. t ≡ atom (chars text.now)) }
        ensures long { IsErrOf result TermFault.LongAtom ↔ (255 < length (chars text.now)) }
        ensures faults { IfErr result (λ e. (e ≡ TermFault.LongAtom) ⊎ (e ≡ TermFault.Memory)) }
    {
        if char_count(text) > MAX_ATOM {
            return Err(TermFault::LongAtom);
        }
        let name = Text::from_str(alloc, text)?;
        Ok(Term {
            node: Node::Atom(name),
        })
    }

    /// The same of a text that was gathered for it. It takes no memory.
    pub fn atom_of(name: Text) -> Result<Term, TermFault>
        ensures { result ≡ cond (nat_lt 255 (length name)) (Err LongAtom) (Ok (atom name)) }
    {
        if char_count(name.as_str()) > MAX_ATOM {
            return Err(TermFault::LongAtom);
        }
        Ok(Term {
            node: Node::Atom(name),
        })
    }

    /// `ManyParts` from 2^32 parts on, then `Depth` above 256 levels.
    pub fn tuple(mut parts: TermList) -> Result<Term, TermFault>
        ensures { result ≡ built (length parts) (tuple (chain parts nil)) }
    {
        levels_above(&parts)?;
        parts.shrink_to_fit();
        Ok(Term {
            node: Node::Tuple(parts),
        })
    }

    /// `ManyParts` from 2^32 parts on, then `Depth` above 256 levels.
    pub fn list(mut parts: TermList) -> Result<Term, TermFault>
        ensures { result ≡ built (length parts) (chain parts nil) }
    {
        levels_above(&parts)?;
        parts.shrink_to_fit();
        Ok(Term {
            node: Node::List(parts),
        })
    }

    /// A map of these pairs of a key and a value, in any order. `ManyParts` from 2^32 pairs on, then `RepeatedKey`,
    /// then `Depth` above 256 levels.
    pub fn map(mut pairs: PairList) -> Result<Term, TermFault>
        ensures { result ≡ map_built pairs }
    {
        pairs.sort_by_key();
        if pairs.len() <= MAX_PARTS && !pairs.keys_ascend() {
            return Err(TermFault::RepeatedKey);
        }
        level_above(pairs.len(), pairs.levels())?;
        Ok(Term {
            node: Node::Map(pairs),
        })
    }

    /// A list of these parts that ends in `tail`. Parts in front of a tail that is a list make one list of both, and
    /// no parts make the tail itself. `ManyParts` from 2^32 elements on, then `Depth` above 256 levels; `Memory`
    /// may come before both.
    pub fn list_with_tail(alloc: Global, mut parts: TermList, tail: Term) -> Result<Term, TermFault>
        ensures { (result ≡ Err OutOfMemory) ⊎ (result ≡ built (length (elements (chain parts tail))) (chain parts tail)) }
    {
        let Term { node } = tail;
        if parts.len() == 0 {
            return Ok(Term { node });
        }
        match node {
            Node::List(rest) => {
                parts.append(rest)?;
                Term::list(parts)
            }
            Node::Improper(rest, last) => {
                parts.append(rest)?;
                improper(parts, last)
            }
            node => {
                let last = boxed(alloc, Term { node })?;
                improper(parts, last)
            }
        }
    }

    /// A bit string of these bytes, of the last one only so many bits from the highest on, 1 to 8, and 8 where there
    /// is no byte. The other bits of it are cleared. `ManyParts` from 2^32 bytes on.
    pub fn bits(mut bytes: ByteList, used: u8) -> Result<Term, TermFault>
        requires { MayUse bytes used }
        ensures { result ≡ bits_built bytes used }
    {
        level_above(bytes.len(), 0)?;
        bytes.clear_unused(used);
        Ok(Term {
            node: Node::Bits(bytes, used),
        })
    }

    /// What the term is made of.
    pub fn node(&self) -> &Node
        ensures value { shown result.now ≡ self.now }
        ensures sound { IsSound result.now }
    {
        &self.node
    }

    /// What the term is made of, taken out of it.
    pub fn into_node(self) -> Node
        ensures value { shown result ≡ self }
        ensures sound { IsSound result }
    {
        let Term { node } = self;
        node
    }

    /// The same term once more.
    #[cycle(copy)]
    pub fn copy(&self, alloc: Global) -> Result<Term, Memory>
        ensures { IfOk result (λ t. t ≡ self.now) }
    {
        let node = match &self.node {
            Node::Int(v) => Node::Int(*v),
            Node::Atom(name) => Node::Atom(name.copy(alloc)?),
            Node::Tuple(parts) => Node::Tuple(parts.copy(alloc)?),
            Node::Map(pairs) => Node::Map(pairs.copy(alloc)?),
            Node::List(parts) => Node::List(parts.copy(alloc)?),
            Node::Improper(parts, tail) => {
                Node::Improper(parts.copy(alloc)?, Box::new(alloc, tail.copy(alloc)?)?)
            }
            Node::Bits(bytes, used) => Node::Bits(bytes.copy(alloc)?, *used),
        };
        Ok(Term { node })
    }

    /// How many levels the term has, 1 to 256.
    pub fn depth(&self) -> u32
        ensures value { result ≡ depth self.now }
        ensures term { IsTerm self.now }
    {
        match &self.node {
            Node::Int(_) => 1,
            Node::Atom(_) => 1,
            Node::Tuple(parts) => parts.levels() + 1,
            Node::Map(pairs) => pairs.levels() + 1,
            Node::List(parts) => parts.levels() + 1,
            Node::Improper(parts, tail) => parts.levels().max(tail.depth()) + 1,
            Node::Bits(_, _) => 1,
        }
    }
}

/// What building a term within its limits answered: the term, or want of memory.
pub fn within_limits(made: Result<Term, TermFault>) -> Result<Term, Memory>
    requires { IfErr made (λ fault. fault ≡ TermFault.Memory) }
    ensures ok { IfOk result (λ term. made ≡ Ok term) }
    ensures memory { OnErr result (made ≡ Err TermFault.Memory) }
{
    match made {
        Ok(term) => Ok(term),
        Err(TermFault::Memory) => Err(Memory),
        Err(_) => unreachable!(),
    }
}

/// The term in a place of its own.
fn boxed(alloc: Global, term: Term) -> Result<Box<Term>, Memory>
    ensures { IfOk result (λ place. place.value ≡ term) }
{
    Ok(Box::new(alloc, term)?)
}

/// An improper list of these parts and this tail.
fn improper(parts: TermList, tail: Box<Term>) -> Result<Term, TermFault>
    requires some { 0 < length parts }
    requires no_list { is_list tail.value ≡ false }
    ensures { result ≡ built (length parts) (chain parts tail.value) }
{
    level_above(parts.len(), parts.levels().max(tail.depth()))?;
    Ok(Term {
        node: Node::Improper(parts, tail),
    })
}

/// How many levels a node over these parts has.
fn levels_above(parts: &TermList) -> Result<u32, TermFault>
    ensures levels { result ≡ limited (length parts.now) (suc (deepest parts.now)) (suc (deepest parts.now)) }
    ensures terms { AreTerms parts.now }
{
    level_above(parts.len(), parts.levels())
}

/// How many levels a node over so many parts has, the deepest of which has so many levels.
fn level_above(parts: usize, levels: u32) -> Result<u32, TermFault>
    ensures { result ≡ limited parts (suc levels) (suc levels) }
{
    if parts > MAX_PARTS {
        Err(TermFault::ManyParts)
    } else if levels >= MAX_DEPTH {
        Err(TermFault::Depth)
    } else {
        Ok(levels + 1)
    }
}

/// The key of an object: its element at `keypos`. `None` where the term is no tuple of at least `keypos`
/// elements or `keypos` is 0.
pub fn key_of(object: &Term, keypos: u32) -> Option<&Term>
    ensures { option_copied result ≡ key object.now keypos }
{
    match object.node() {
        Node::Tuple(parts) if keypos > 0 => parts.get(keypos as usize - 1),
        _ => None,
    }
}
