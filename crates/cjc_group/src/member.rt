//! A package of a group, lent to be linked: its list, its world, and the export file that is written for it.

ghost use Rattle.std.specs.Prelude.{◌≡◌};

use cjc_list::List;
use cjc_world::World;
use cjc_world::export_file::ExportTree;
use std::marker::Model;

/// A package of a group.
#[derive(Drop)]
pub struct Member<'w, 'a> {
    list: &'w List,
    world: &'w World<'a>,
    written: &'w ExportTree,
}

impl<'w, 'a> Model for Member<'w, 'a> {
    ghost use Rattle.cjc_group.specs.Members.{Member as Linked};

    ghost Value = { Linked };

    ghost view = { λ m. record { list = m.list.now; files = m.world.now; written = m.written.now } };
}

impl<'w, 'a> Member<'w, 'a> {
    /// The package of a list, over the world of its files, for which this export file is written. Takes no memory.
    pub fn new(list: &'w List, world: &'w World<'a>, written: &'w ExportTree) -> Member<'w, 'a>
        ensures { result ≡ record { list = list.now; files = world.now; written = written.now } }
    {
        Member {
            list,
            world,
            written,
        }
    }

    /// The list.
    pub fn list(&self) -> &'w List
        ensures { result.now ≡ self.now.list }
    {
        self.list
    }

    /// The world of the package's files.
    pub fn world(&self) -> &'w World<'a>
        ensures { result.now ≡ self.now.files }
    {
        self.world
    }

    /// The export file that is written for the package.
    pub fn written(&self) -> &'w ExportTree
        ensures { result.now ≡ self.now.written }
    {
        self.written
    }
}
