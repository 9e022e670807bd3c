//! Items: data items without widths, chunks and offsets, valid or not. Elements, pairs and contents
//! are wrapped, so that contracts see what they mean, and no vectors and boxes.

use crate::ByteString;
use std::alloc::{AllocError, Global};
use std::marker::Model;

/// A data item of the extended generic data model (RFC 8949 sections 2 and 3.4.3).
#[derive(Drop)]
#[cycle(item)]
pub enum Item {
    /// An integer or a bignum: n, or -1 - n if negative, n being the number of the magnitude.
    Int {
        /// Whether the integer is below 0.
        negative: bool,
        /// The bytes of n, most significant first. A valid item has no leading zero here.
        magnitude: ByteString,
    },
    /// A byte string: its bytes, of all chunks joined.
    Bytes(ByteString),
    /// A text string: its text, of all chunks joined.
    Text(String),
    /// An array: its elements, in order.
    Items(ItemList),
    /// A map: its pairs of a key and a value. A valid item has no two keys that are the same.
    Pairs(PairList),
    /// A tag: its number and its content. A valid item has no tag 2 or 3 here, since bignums are
    /// integers.
    Tagged(u64, ItemBox),
    /// A simple value, by its number: 0 to 23 or 32 to 255 in a valid item.
    Simple(u8),
}

/// The elements of an array, which contracts see as the list of what they mean.
#[derive(Drop)]
#[cycle(item)]
pub struct ItemList {
    items: Vec<Item>,
}

/// The pairs of a map, which contracts see as the list of what they mean.
#[derive(Drop)]
#[cycle(item)]
pub struct PairList {
    pairs: Vec<(Item, Item)>,
}

/// The content of a tag, which contracts see as what it means.
#[derive(Drop)]
#[cycle(item)]
pub struct ItemBox {
    item: Box<Item>,
}

impl ItemList {
    ghost use Rattle.std.specs.Prelude.{◌≡◌, map};
    ghost use Rattle.cborn_model.specs.ItemView.{item_value};

    /// The elements of an array, in order. Takes no memory.
    pub fn new(items: Vec<Item>) -> ItemList
        ensures { result ≡ map item_value items.items }
    {
        ItemList { items }
    }

    /// The elements, in order.
    pub fn as_slice(&self) -> &[Item]
        ensures { map item_value result.now ≡ self.now }
    {
        self.items.as_slice()
    }

    /// The elements, in order. Takes no memory.
    pub fn into_vec(self) -> Vec<Item>
        ensures { map item_value result.items ≡ self }
    {
        self.items
    }
}

impl PairList {
    ghost use Rattle.std.specs.Prelude.{◌≡◌, map};
    ghost use Rattle.cborn_model.specs.ItemView.{pair_value};

    /// The pairs of a map, each a key and its value. Takes no memory.
    pub fn new(pairs: Vec<(Item, Item)>) -> PairList
        ensures { result ≡ map pair_value pairs.items }
    {
        PairList { pairs }
    }

    /// The pairs, in order, each a key and its value.
    pub fn as_slice(&self) -> &[(Item, Item)]
        ensures { map pair_value result.now ≡ self.now }
    {
        self.pairs.as_slice()
    }

    /// The pairs, in order. Takes no memory.
    pub fn into_vec(self) -> Vec<(Item, Item)>
        ensures { map pair_value result.items ≡ self }
    {
        self.pairs
    }
}

impl ItemBox {
    ghost use Rattle.std.specs.Prelude.{◌≡◌, IfOk};
    ghost use Rattle.cborn_model.specs.ItemView.{item_value};

    /// Moves the content of a tag to the heap.
    ///
    /// # Errors
    /// `AllocError` if memory is refused; the item is then freed.
    pub fn new(alloc: Global, item: Item) -> Result<ItemBox, AllocError>
        ensures { IfOk result (λ b. b ≡ item_value item) }
    {
        let item = Box::new(alloc, item)?;
        Ok(ItemBox { item })
    }

    /// The content of the tag.
    pub fn get(&self) -> &Item
        ensures { item_value result.now ≡ self.now }
    {
        &self.item
    }

    /// The content of the tag. Takes no memory.
    pub fn into_inner(self) -> Item
        ensures { item_value result ≡ self }
    {
        Box::into_inner(self.item)
    }
}

impl Model for ItemList {
    ghost use Rattle.std.specs.Prelude.{List, map};
    ghost use Rattle.std.specs.Coded.{coded_list};
    ghost use Rattle.cborn_model.specs.Value as model;
    ghost use Rattle.cborn_model.specs.Value.{values_of, height_all};
    ghost use Rattle.cborn_model.specs.devices.ValueCode.{value_code};

    ghost Value = { List model.Value };

    ghost coded = { coded_list value_code };

    ghost use Rattle.cborn_model.specs.ItemView.{item_value};

    ghost view = { λ a. map item_value a.items.items };

    ghost size = { λ vs. height_all (values_of vs) };

    ghost use Rattle.cborn_model.specs.devices.ItemFalls.{items_fall};

    ghost size_decreases = { λ a h. items_fall a.items.items };
}

impl Model for PairList {
    ghost use Rattle.std.specs.Prelude.{List, map};
    ghost use Rattle.std.specs.Coded.{coded_list, coded×};
    ghost use Rattle.cborn_model.specs.Value as model;
    ghost use Rattle.cborn_model.specs.Value.{pairs_of, height_pairs};
    ghost use Rattle.cborn_model.specs.devices.ValueCode.{value_code};

    ghost Value = { List (model.Value × model.Value) };

    ghost coded = { coded_list (coded× value_code value_code) };

    ghost use Rattle.cborn_model.specs.ItemView.{pair_value};

    ghost view = { λ a. map pair_value a.pairs.items };

    ghost size = { λ ps. height_pairs (pairs_of ps) };

    ghost use Rattle.cborn_model.specs.devices.ItemFalls.{pairs_fall};

    ghost size_decreases = { λ a h. pairs_fall a.pairs.items };
}

impl Model for ItemBox {
    ghost use Rattle.cborn_model.specs.Value as model;
    ghost use Rattle.cborn_model.specs.Value.{height};
    ghost use Rattle.cborn_model.specs.devices.ValueCode.{value_code};

    ghost Value = { model.Value };

    ghost coded = { value_code };

    ghost use Rattle.cborn_model.specs.ItemView.{item_value};

    ghost view = { λ a. item_value a.item.value };

    ghost size = { height };

    ghost use Rattle.cborn_model.specs.devices.ItemFalls.{item_falls};

    ghost size_decreases = { λ a h. item_falls a.item.value };
}
