//! Whether the elements of a list are objects that a kind allows for one key.
ghost use Rattle.std.specs.Prelude.{◌≡◌, cond};
ghost use Rattle.std.specs.List.{list_all};
ghost use Rattle.std.specs.Ordering.{is_lt, is_le};
ghost use Rattle.dets_term.specs.TermValue.{key};
ghost use Rattle.table_model.specs.Allowed.{is_object};
ghost use Rattle.table_model.specs.Table.{has_key, shares_key};
ghost use Rattle.file_model.specs.Block.{ascend_by, in_order};
ghost use Rattle.key_block.specs.Unpacking.{are_objects, share_key};

use crate::Objects;
use dets_term::{Kind, Term, cmp, eq, key_of};
use std::cmp::Ordering;

/// Whether there is a term, and all are tuples of at least `keypos` elements.
pub(crate) fn are_objects(keypos: u32, objects: &Objects) -> bool
    ensures { result ≡ are_objects keypos objects.now }
{
    if objects.len() == 0 {
        return false;
    }
    for place in 0..objects.len() {
        let Some(object) = objects.get(place) else {
            return false;
        };
        if !is_object(keypos, object) {
            return false;
        }
    }
    true
}

fn is_object(keypos: u32, object: &Term) -> bool
    ensures { result ≡ is_object keypos object.now }
{
    key_of(object, keypos).is_some()
}

/// Whether all have the key of the first.
pub(crate) fn share_key(keypos: u32, objects: &Objects) -> bool
    ensures { result ≡ share_key keypos objects.now }
{
    match objects.get(0) {
        Some(first) => all_share_key(keypos, first, objects),
        None => true,
    }
}

fn all_share_key(keypos: u32, first: &Term, objects: &Objects) -> bool
    ensures { result ≡ list_all (shares_key keypos (key first.now keypos)) objects.now }
{
    for place in 0..objects.len() {
        let Some(object) = objects.get(place) else {
            return false;
        };
        if !shares_key(keypos, first, object) {
            return false;
        }
    }
    true
}

/// Whether another object has the key of this one.
fn shares_key(keypos: u32, object: &Term, other: &Term) -> bool
    ensures { result ≡ shares_key keypos (key object.now keypos) other.now }
{
    match key_of(object, keypos) {
        Some(key) => has_key(keypos, key, other),
        None => false,
    }
}

/// Whether an object has this key.
fn has_key(keypos: u32, key: &Term, object: &Term) -> bool
    ensures { result ≡ has_key keypos key.now object.now }
{
    match key_of(object, keypos) {
        Some(found) => eq(found, key),
        None => false,
    }
}

/// Whether objects of one key stand as the kind has them.
pub(crate) fn in_order(kind: Kind, objects: &Objects) -> bool
    ensures { result ≡ in_order kind objects.now }
{
    match kind {
        Kind::Set => objects.len() <= 1,
        Kind::Bag => ascend(true, objects),
        Kind::DuplicateBag => ascend(false, objects),
    }
}

fn ascend(strictly: bool, objects: &Objects) -> bool
    ensures { result ≡ ascend_by (cond strictly is_lt is_le) objects.now }
{
    for place in 1..objects.len() {
        let Some(before) = objects.get(place - 1) else {
            return false;
        };
        let Some(object) = objects.get(place) else {
            return false;
        };
        if !passes(strictly, cmp(before, object)) {
            return false;
        }
    }
    true
}

fn passes(strictly: bool, order: Ordering) -> bool
    ensures { result ≡ (cond strictly is_lt is_le) order }
{
    if strictly {
        order.is_lt()
    } else {
        order.is_le()
    }
}
