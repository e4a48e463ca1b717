//! `Given`, what the converter has made of a package before its components are put together: world, tokens,
//! image, keys and extents. All modules of the crate read it.

use cjc_classes::bytes::Row;
use cjc_classes::descriptor::Extent;
use cjc_classes::list::List;
use cjc_classes::ncode::PoolKey;
use cjc_classes::tokens::Tokens;
use cjc_classes::world::{StaticImage, World};

/// What is made of a package before its components.
#[derive(Clone, Copy)]
pub struct Given<'a> {
    pub list: &'a List,
    pub world: &'a World<'a>,
    pub tokens: &'a Tokens,
    /// The numbers of its classes that are no interfaces, in the order of Class.
    pub order: &'a [u32],
    /// What its static fields hold at first.
    pub image: &'a StaticImage,
    /// The keys of its constant pool, in their order.
    pub keys: &'a [PoolKey],
    /// By the number of a key the token of its virtual method, 0 where it is of none.
    pub key_tokens: &'a [u8],
    /// By the number of a class and of its member where a method stands in Method. Fields are counted first,
    /// then methods, then those that the class got.
    pub extents: &'a [Row<Extent>],
}
