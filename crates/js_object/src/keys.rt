// The keys of an object in their order (ECMA-262, "OrdinaryOwnPropertyKeys").
ghost use Rattle.std.specs.Prelude.{◌≡◌, ◌++◌, ◌∷◌, [], ◌≤◌, length, IfOk, IfErr, OnOk, None, Some, true, map, ℕ, ◌↔◌, decimal};
ghost use Rattle.std.specs.Str.{all_ascii_digits};
ghost use Rattle.std.specs.BTreeMap.{values};
ghost use Rattle.js_store.specs.State.{text};
ghost use Rattle.js_store.specs.Faults.{Uses};
ghost use Rattle.js_store.specs.declared.faults.StoreFault.TheVariants.{Memory};
ghost use Rattle.js_item.specs.Fine.{strings_of, KeyFine, KeysFine, KeysDiffer};
ghost use Rattle.js_object.specs.Order.{IsTheOrder};
ghost use Rattle.js_object.specs.Keys.{index_of_key, has_form, read_on, ordered, key_values, lent_entry, key_index, index_in};
ghost use Rattle.js_object.specs.Steps.{index_entered, put_off};
ghost use Rattle.js_object.specs.Keys.{unit_keys};
ghost use Rattle.js_object.specs.Keys;
ghost use Rattle.js_item.specs.Seen.{says, fields_mapped};
ghost use Rattle.js_item.specs.Views.{fields_of};

use js_item::{Member, Object};
use js_store::{StoreFault, Strings};
use js_texts::copied;
use js_units::NoMemory;
use std::alloc::Global;
use std::collections::BTreeMap;

/// The keys: the array indexes in ascending order, and then the others in the order of the
/// members. Lack of memory is the only refusal.
#[tactic(auto, using(crate::proofs::Seen::keys_seen))]
pub fn own_keys<S: Strings>(
    alloc: Global,
    store: &mut S,
    of: &Object<S::Ref>,
) -> Result<Vec<S::Ref>, StoreFault>
    requires { KeysFine (strings_of (S.state store.old)) S.number of.now }
    ensures value { IfOk result (λ keys. keys.items ≡ Keys.own_keys (S.state store.old) S.number of.now) }
    ensures units { IfOk result
        (λ keys. map (says (S.state store.old) S.number) keys.items
        ≡ unit_keys (fields_mapped (says (S.state store.old) S.number) of.now)) }
    ensures order { IfOk result (λ keys. KeysDiffer (strings_of (S.state store.old)) S.number of.now
        → IsTheOrder (key_index (S.state store.old) S.number) (Keys.keys_of (key_values of.now)) keys.items) }
    ensures fault { IfErr result (λ f. f ≡ Memory) }
    ensures uses { Uses (S.state store.old) (S.state store.new) None 0 0 }
{
    match keys(alloc, store, of) {
        Ok(keys) => Ok(keys),
        Err(_) => Err(StoreFault::Memory),
    }
}

fn keys<S: Strings>(
    alloc: Global,
    store: &mut S,
    of: &Object<S::Ref>,
) -> Result<Vec<S::Ref>, NoMemory>
    requires { KeysFine (strings_of (S.state store.old)) S.number of.now }
    ensures value { IfOk result (λ keys. keys.items ≡ Keys.own_keys (S.state store.old) S.number of.now) }
    ensures uses { Uses (S.state store.old) (S.state store.new) None 0 0 }
{
    let members = in_order(alloc, store, of)?;
    keys_of(alloc, &members)
}

fn keys_of<R: Copy>(alloc: Global, members: &[&Member<R>]) -> Result<Vec<R>, NoMemory>
    ensures { IfOk result (λ keys. keys.items ≡ Keys.keys_of (map lent_entry members.now)) }
{
    let mut keys = Vec::new(alloc);
    for member in members {
        keys.push(member.key)?;
    }
    Ok(keys)
}

/// The members in the order of their keys.
pub fn in_order<'a, S: Strings>(
    alloc: Global,
    store: &mut S,
    of: &'a Object<S::Ref>,
) -> Result<Vec<&'a Member<S::Ref>>, NoMemory>
    requires { KeysFine (strings_of (S.state store.old)) S.number of.now }
    ensures value { IfOk result
        (λ members. map lent_entry members.items
        ≡ ordered (index_in (S.state store.old) S.number) (key_values of.now)) }
    ensures order { IfOk result (λ members. KeysDiffer (strings_of (S.state store.old)) S.number of.now
        → IsTheOrder (index_in (S.state store.old) S.number) (key_values of.now)
        (map lent_entry members.items)) }
    ensures uses { Uses (S.state store.old) (S.state store.new) None 0 0 }
{
    let mut indexes = BTreeMap::new(alloc);
    let mut others = Vec::new(alloc);
    for member in of.members() {
        let index = key_index(alloc, store, member.key)?;
        enter(index, member, &mut indexes, &mut others)?;
    }
    listed(alloc, &indexes, &others)
}

// The array index that a key is.
fn key_index<S: Strings>(alloc: Global, store: &mut S, key: S::Ref) -> Result<Option<u32>, NoMemory>
    requires { KeyFine (strings_of (S.state store.old)) (S.number key) }
    ensures value { IfOk result (λ index. index ≡ index_of_key (text (S.state store.old) (S.number key))) }
    ensures uses { Uses (S.state store.old) (S.state store.new) None 0 0 }
{
    if store.len(key) > 10 {
        return Ok(None);
    }
    let units = copied(alloc, store, key)?;
    Ok(array_index(units.as_slice()))
}

// The number whose decimal digits the units are, where it is an array index.
pub fn array_index(units: &[u16]) -> Option<u32>
    ensures value { result ≡ index_of_key units.now }
    ensures means { (n : ℕ) → n ≤ 4294967294 → (result ≡ Some n) ↔ (units.now ≡ decimal n) }
{
    parsed(units)
}

fn parsed(units: &[u16]) -> Option<u32>
    ensures { result ≡ index_of_key units.now }
{
    if !is_numeral(units) {
        return None;
    }
    u32::try_from(read(units)).ok().filter(|n| *n < u32::MAX)
}

// One to ten digits, with no zero in front of others.
fn is_numeral(units: &[u16]) -> bool
    ensures form { result ≡ has_form units.now }
{
    match units {
        [] => false,
        [first, rest @ ..] => {
            (*first != 0x30 || rest.is_empty()) && rest.len() <= 9 && are_digits(units)
        }
    }
}

fn are_digits(units: &[u16]) -> bool
    ensures { result ≡ all_ascii_digits units.now }
{
    for unit in units {
        if !(0x30..0x3A).contains(unit) {
            return false;
        }
    }
    true
}

fn read(units: &[u16]) -> u64
    requires few { length units.now ≤ 10 }
    requires digits { all_ascii_digits units.now ≡ true }
    ensures { result ≡ read_on 0 units.now }
{
    let mut value = 0;
    for unit in units {
        value = value * 10 + u64::from(*unit - 0x30);
    }
    value
}

fn enter<R: Copy>(
    index: Option<u32>,
    key: R,
    indexes: &mut BTreeMap<u32, R>,
    others: &mut Vec<R>,
) -> Result<(), NoMemory>
    ensures indexes { OnOk result (indexes.new.entries ≡ index_entered index key indexes.old.entries) }
    ensures others { OnOk result (others.new.items ≡ others.old.items ++ put_off index key []) }
{
    match index {
        Some(index) => {
            indexes.insert(index, key)?;
        }
        None => others.push(key)?,
    }
    Ok(())
}

fn listed<R: Copy>(
    alloc: Global,
    indexes: &BTreeMap<u32, R>,
    others: &[R],
) -> Result<Vec<R>, NoMemory>
    ensures { IfOk result (λ keys. keys.items ≡ values indexes.now ++ others.now) }
{
    let mut keys = Vec::new(alloc);
    for key in indexes.values() {
        keys.push(*key)?;
    }
    keys.extend_from_slice(others)?;
    Ok(keys)
}
