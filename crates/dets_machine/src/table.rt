//! The objects of a set with keypos 1, in memory. This plain body looks through all of them; the table over a
//! file takes its place.
ghost use Rattle.std.specs.Prelude.{◌≡◌, ◌≤◌, [], length, filter, not, IfOk, OnOk};
ghost use Rattle.dets_term.specs.TermValue.{depth, key};
ghost use Rattle.dets_term.specs.Sorted.{ascending};
ghost use Rattle.dets_term.specs.Parts.{deepest};
ghost use Rattle.dets_term.specs.declared.Kind.TheVariants.{Set};
ghost use Rattle.table_model.specs.Table.{has_key, shares_key, with_object};

use crate::Memory;
use dets_term::{Term, TermList, eq, key_of};
use std::alloc::Global;
use std::marker::Model;

const KEYPOS: u32 = 1;

/// A set of objects, at most one for each key.
#[derive(Drop)]
pub(crate) struct Table {
    objects: Vec<Term>,
}

impl Model for Table {
    ghost use Rattle.std.specs.Prelude.{List};
    ghost use Rattle.dets_term.specs.TermValue.{TermValue};
    ghost use Rattle.std.specs.Coded.{coded_list};
    ghost use Rattle.dets_term.specs.TermCode.{coded_term};
    ghost use Rattle.dets_machine.specs.Objects.{AreOfSet};

    ghost Value = { List TermValue };

    ghost coded = { coded_list coded_term };

    ghost view = { λ a. a.objects.items };

    ghost invariant = { λ a. AreOfSet a.objects.items };
}

impl Table {
    pub(crate) fn new(alloc: Global) -> Table
        ensures { result ≡ [] }
    {
        Table {
            objects: Vec::new(alloc),
        }
    }

    /// The objects of a key: none or one.
    pub(crate) fn lookup(&self, alloc: Global, key: &Term) -> Result<TermList, Memory>
        ensures found { IfOk result (λ found. found ≡ ascending (filter (has_key KEYPOS key.now) self.now)) }
        ensures few { IfOk result (λ found. length found ≤ 1) }
        ensures shallow { IfOk result (λ found. deepest found ≤ 255) }
    {
        let mut found = TermList::new(alloc);
        for object in &self.objects {
            if has_key(object, key) {
                found.push(object.copy(alloc)?)?;
            }
        }
        Ok(found)
    }

    /// Puts an object in the place of the one with its key. After `Memory` some objects may be gone.
    pub(crate) fn insert(&mut self, object: Term) -> Result<(), Memory>
        requires { depth object ≤ 255 }
        ensures { OnOk result (self.new ≡ with_object Set KEYPOS self.old object) }
    {
        remove_key(&mut self.objects, &object);
        self.objects.push(object)?;
        Ok(())
    }
}

/// Takes out the objects with the key of this one.
fn remove_key(objects: &mut Vec<Term>, object: &Term)
    ensures { objects.new.items
        ≡ filter (λ other. not (shares_key KEYPOS (key object.now KEYPOS) other)) objects.old.items }
{
    objects.retain(|other| !shares_key(object, other));
}

/// Whether an object has this key.
fn has_key(object: &Term, key: &Term) -> bool
    ensures { result ≡ has_key KEYPOS key.now object.now }
{
    match key_of(object, KEYPOS) {
        Some(found) => eq(found, key),
        None => false,
    }
}

/// Whether another object has the key of this one.
fn shares_key(object: &Term, other: &Term) -> bool
    ensures { result ≡ shares_key KEYPOS (key object.now KEYPOS) other.now }
{
    match key_of(object, KEYPOS) {
        Some(key) => has_key(other, key),
        None => false,
    }
}
