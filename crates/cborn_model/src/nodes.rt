//! Nodes: data items as they are spelled, or as they would be, if an argument doesn't fit its
//! width.

use crate::{ByteString, Size, Width};
use std::marker::Model;

/// A definite string inside an indefinite one.
#[derive(Drop)]
pub struct Chunk {
    /// The offset of its head, in bytes from the start of the input.
    pub place: u64,
    /// The width of its head.
    pub width: Width,
    /// The content, without the head.
    pub bytes: ByteString,
}

/// A data item as it is spelled, and where.
#[derive(Drop)]
#[cycle(node)]
pub struct Node {
    /// The offset of its head, in bytes from the start of the input.
    pub place: u64,
    /// What is spelled at that offset.
    pub form: Form,
}

/// What a node spells. A width is that of the node's own head, and a `u64` is its argument.
#[derive(Drop)]
#[cycle(node)]
pub enum Form {
    /// The integer of this argument (RFC 8949 section 3.1, major type 0).
    Uint(Width, u64),
    /// The integer -1 - n, n being the argument (major type 1).
    Nint(Width, u64),
    /// A definite byte string (major type 2). The argument is its length.
    Bytes(Width, ByteString),
    /// A definite text string (major type 3), not known to be UTF-8. The argument is its length in
    /// bytes.
    Text(Width, ByteString),
    /// An indefinite byte string (RFC 8949 section 3.2.3): its chunks, in order.
    ByteChunks(Vec<Chunk>),
    /// An indefinite text string: its chunks, in order.
    TextChunks(Vec<Chunk>),
    /// An array (major type 4): its elements, in order.
    Items(Size, Vec<Node>),
    /// A map (major type 5): its pairs of a key and a value, in the order of the bytes.
    Pairs(Size, Vec<(Node, Node)>),
    /// A tag (major type 6): the width of its head, its number and its content.
    Tagged(Width, u64, Box<Node>),
    /// A simple value (RFC 8949 section 3.3, major type 7), by its number: up to 23 in one byte,
    /// from 32 on in two.
    Simple(u8),
}

impl Model for Node {
    ghost use Rattle.cborn_model.specs.Tree.{Tree, depth};
    ghost use Rattle.cborn_model.specs.shared.TreeCode.{tree_code};

    ghost Value = { Tree };

    ghost coded = { tree_code };

    ghost use Rattle.cborn_model.specs.View.{tree_of};

    ghost view = { λ a. tree_of a.place a.form };

    ghost size = { depth };

    ghost use Rattle.cborn_model.specs.devices.TreeFalls.{depth_falls};

    ghost size_decreases = { λ a h. depth_falls a.place a.form };
}
