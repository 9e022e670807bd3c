//! Which items are valid, and [`Valid`], an item that is. Texts are UTF-8 by their type.

ghost use Rattle.std.specs.Prelude.{◌≡◌, ◌-◌, ◌^◌, ◌<◌, ◌↔◌};
ghost use Rattle.cborn_model.specs.Common.{min, map, length, IsTrue};
ghost use Rattle.cborn_model.specs.ItemView.{item_value, pair_value};
ghost use Rattle.cborn_model.specs.Value.{values_of, pairs_of};
ghost use Rattle.cborn_model.specs.Valid.{HasNewKeys, IsProper, AreProper, HasProperPairs, IsValid, value_depth, values_depth, pairs_depth};

use crate::comparisons::value_of;
use crate::{Item, is_simple_value, word_of};
use std::marker::Model;

/// A valid item (RFC 8949 section 5.3), with a nesting depth of at most 1,024.
#[derive(Drop)]
pub struct Valid {
    item: Item,
}

impl Model for Valid {
    ghost use Rattle.cborn_model.specs.Value as model;
    ghost use Rattle.cborn_model.specs.devices.ValueCode.{value_code};

    ghost Value = { model.Value };

    ghost coded = { value_code };

    ghost use Rattle.cborn_model.specs.ItemView.{item_value};
    ghost use Rattle.cborn_model.specs.Valid.{IsValid};

    ghost view = { λ v. item_value v.item };

    ghost invariant = { λ v. IsValid (item_value v.item) };
}

impl Valid {
    /// Wraps `item`, which must be valid and at most 1,024 deep ([`is_valid`] checks). Takes no
    /// memory.
    pub fn new(item: Item) -> Valid
        requires { IsValid (item_value item) }
        ensures { result ≡ item_value item }
    {
        Valid { item }
    }

    /// The item.
    pub fn item(&self) -> &Item
        ensures same { item_value result.now ≡ self.now }
        ensures valid { IsValid self.now }
    {
        &self.item
    }

    /// Unwraps the item.
    pub fn into_item(self) -> Item
        ensures same { item_value result ≡ self }
        ensures valid { IsValid self }
    {
        self.item
    }
}

/// Whether `item` is valid and at most 1,024 deep: magnitudes without leading zeros, no tag 2 or 3,
/// no simple value from 24 to 31, and no two keys of a map the same (RFC 8949 sections 3.4.3 and
/// 5.3). An integer outside 64 bits counts as one deep. Takes no memory. Compares the keys of a map
/// each with each.
pub fn is_valid(item: &Item) -> bool
    ensures { IsTrue result ↔ IsValid (item_value item.now) }
{
    is_proper(item) && item_depth(item) <= 1024
}

/// Whether `item` is valid, at any depth.
#[cycle(is_proper)]
fn is_proper(item: &Item) -> bool
    ensures { IsTrue result ↔ IsProper (item_value item.now) }
{
    match item {
        Item::Int { magnitude, .. } => magnitude.as_slice().first() != Some(&0),
        // each length is in memory
        Item::Bytes(bytes) => bytes.as_slice().len() < usize::MAX,
        Item::Text(text) => text.as_str().len() < usize::MAX,
        Item::Items(items) => are_proper(items.as_slice()),
        Item::Pairs(pairs) => {
            let pairs = pairs.as_slice();
            has_proper_pairs(pairs) && has_new_keys(pairs)
        }
        Item::Tagged(tag, content) => *tag != 2 && *tag != 3 && is_proper(content.get()),
        Item::Simple(n) => is_simple_value(u64::from(*n)),
    }
}

#[cycle(is_proper)]
fn are_proper(items: &[Item]) -> bool
    ensures { IsTrue result ↔ AreProper (values_of (map item_value items.now)) × (length items.now < 2 ^ 64) }
{
    for item in items {
        if !is_proper(item) {
            return false;
        }
    }
    true
}

#[cycle(is_proper)]
fn has_proper_pairs(pairs: &[(Item, Item)]) -> bool
    ensures { IsTrue result ↔ HasProperPairs (pairs_of (map pair_value pairs.now)) × (length pairs.now < 2 ^ 64) }
{
    for (key, value) in pairs {
        if !is_proper(key) || !is_proper(value) {
            return false;
        }
    }
    true
}

/// Whether no two keys are the same.
#[tactic(auto, using(crate::proofs::Listed::Deciding::refuted, crate::proofs::Listed::Deciding::there, crate::proofs::Listed::Validating::given_after_head))]
fn has_new_keys(pairs: &[(Item, Item)]) -> bool
    requires { HasProperPairs (pairs_of (map pair_value pairs.now)) }
    ensures { IsTrue result ↔ HasNewKeys (pairs_of (map pair_value pairs.now)) }
{
    let mut rest = pairs;
    while let [pair, after @ ..] = rest {
        if value_of(after, &pair.0).is_some() {
            return false;
        }
        rest = after;
    }
    true
}

/// The nesting depth of `item`, or `u64::MAX` if it is more.
#[cycle(item_depth)]
fn item_depth(item: &Item) -> u64
    ensures { result ≡ min (value_depth (item_value item.now)) (2 ^ 64 - 1) }
{
    match item {
        Item::Int { magnitude, .. } => match word_of(magnitude.as_slice()) {
            Some(_) => 0,
            None => 1,
        },
        Item::Items(items) => items_depth(items.as_slice()).saturating_add(1),
        Item::Pairs(pairs) => pairs_depth(pairs.as_slice()).saturating_add(1),
        Item::Tagged(_, content) => item_depth(content.get()).saturating_add(1),
        _ => 0,
    }
}

#[cycle(item_depth)]
fn items_depth(items: &[Item]) -> u64
    ensures { result ≡ min (values_depth (values_of (map item_value items.now))) (2 ^ 64 - 1) }
{
    let mut deepest = 0u64;
    for item in items {
        deepest = deepest.max(item_depth(item));
    }
    deepest
}

#[cycle(item_depth)]
fn pairs_depth(pairs: &[(Item, Item)]) -> u64
    ensures { result ≡ min (pairs_depth (pairs_of (map pair_value pairs.now))) (2 ^ 64 - 1) }
{
    let mut deepest = 0u64;
    for (key, value) in pairs {
        deepest = deepest.max(item_depth(key)).max(item_depth(value));
    }
    deepest
}
