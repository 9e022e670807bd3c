//! Sameness of items (RFC 8949 sections 2, 3.4.3 and 5.6.1). Pairs of maps are looked for one by
//! one, first at their own index, since most maps that are the same are written in one order.

ghost use Rattle.std.specs.Prelude.{◌≤◌, ◌↔◌};
ghost use Rattle.cborn_model.specs.Common.{map, length, IsTrue, MatchOption};
ghost use Rattle.cborn_model.specs.ItemView.{item_value, pair_value};
ghost use Rattle.cborn_model.specs.devices.Pairs.{HasPair, Gives};
ghost use Rattle.cborn_model.specs.Valid.{IsNew, HasNewKeys, IsProper, AreProper, HasProperPairs};
ghost use Rattle.cborn_model.specs.Value.{Same, SameValues, dict, values_of, pairs_of};

use crate::{Item, Valid};

/// Whether two items are the same: integers by their number, arrays by their elements in order,
/// maps by their pairs in any order (RFC 8949 sections 2, 3.4.3 and 5.6.1). Takes no memory. Maps
/// that were written in one order take one pass; others take up to the product of their sizes.
pub fn same(a: &Valid, b: &Valid) -> bool
    ensures { IsTrue result ↔ Same a.now b.now }
{
    same_items(a.item(), b.item())
}

#[cycle(same_items)]
pub(crate) fn same_items(a: &Item, b: &Item) -> bool
    requires first { IsProper (item_value a.now) }
    requires second { IsProper (item_value b.now) }
    ensures { IsTrue result ↔ Same (item_value a.now) (item_value b.now) }
{
    match (a, b) {
        (
            Item::Int {
                negative,
                magnitude,
            },
            Item::Int {
                negative: other_negative,
                magnitude: other_magnitude,
            },
        ) => *negative == *other_negative && magnitude.as_slice() == other_magnitude.as_slice(),
        (Item::Bytes(x), Item::Bytes(y)) => x.as_slice() == y.as_slice(),
        (Item::Text(x), Item::Text(y)) => x.as_bytes() == y.as_bytes(),
        (Item::Items(x), Item::Items(y)) => same_arrays(x.as_slice(), y.as_slice()),
        (Item::Pairs(x), Item::Pairs(y)) => same_maps(x.as_slice(), y.as_slice()),
        (Item::Tagged(m, x), Item::Tagged(n, y)) => *m == *n && same_items(x.get(), y.get()),
        (Item::Simple(m), Item::Simple(n)) => *m == *n,
        _ => false,
    }
}

#[cycle(same_items)]
fn same_arrays(a: &[Item], b: &[Item]) -> bool
    requires first { AreProper (values_of (map item_value a.now)) }
    requires second { AreProper (values_of (map item_value b.now)) }
    ensures { IsTrue result ↔ SameValues (values_of (map item_value a.now)) (values_of (map item_value b.now)) }
{
    if a.len() != b.len() {
        return false;
    }
    for i in 0..a.len() {
        if !same_items(&a[i], &b[i]) {
            return false;
        }
    }
    true
}

/// Whether two maps of distinct keys are the same: as many pairs, and each of `a` in `b`.
#[cycle(same_items)]
fn same_maps(a: &[(Item, Item)], b: &[(Item, Item)]) -> bool
    requires first { HasProperPairs (pairs_of (map pair_value a.now)) }
    requires first_keys { HasNewKeys (pairs_of (map pair_value a.now)) }
    requires second { HasProperPairs (pairs_of (map pair_value b.now)) }
    requires second_keys { HasNewKeys (pairs_of (map pair_value b.now)) }
    ensures { IsTrue result ↔ Same (dict (pairs_of (map pair_value a.now))) (dict (pairs_of (map pair_value b.now))) }
{
    if a.len() != b.len() {
        return false;
    }
    for i in 0..a.len() {
        let pair = &a[i];
        if !has_pair(b, i, &pair.0, &pair.1) {
            return false;
        }
    }
    true
}

/// Whether `pairs`, of distinct keys, have this key with this value. The search begins at `start`.
#[cycle(same_items)]
fn has_pair(pairs: &[(Item, Item)], start: usize, key: &Item, value: &Item) -> bool
    requires start { start ≤ length pairs.now }
    requires key { IsProper (item_value key.now) }
    requires value { IsProper (item_value value.now) }
    requires pairs { HasProperPairs (pairs_of (map pair_value pairs.now)) }
    requires keys { HasNewKeys (pairs_of (map pair_value pairs.now)) }
    ensures { IsTrue result ↔ HasPair (item_value key.now, item_value value.now) (map pair_value pairs.now) }
{
    let (before, after) = pairs.split_at(start);
    match value_of(after, key) {
        Some(found) => same_items(value, found),
        None => match value_of(before, key) {
            Some(found) => same_items(value, found),
            None => false,
        },
    }
}

/// The value of the first pair whose key is the same as `key`.
#[cycle(same_items)]
pub(crate) fn value_of<'a>(pairs: &'a [(Item, Item)], key: &Item) -> Option<&'a Item>
    requires key { IsProper (item_value key.now) }
    requires pairs { HasProperPairs (pairs_of (map pair_value pairs.now)) }
    ensures { MatchOption result (IsNew (item_value key.now) (pairs_of (map pair_value pairs.now))) (λ v. Gives (item_value key.now) (item_value v.now) (map pair_value pairs.now) × IsProper (item_value v.now)) }
{
    for pair in pairs {
        if same_items(key, &pair.0) {
            return Some(&pair.1);
        }
    }
    None
}
