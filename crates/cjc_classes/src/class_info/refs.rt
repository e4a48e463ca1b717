//! The class_refs of classes by their names. Called by `starts`, `outside` and whoever writes a class_ref. It knows no
//! class.

ghost use Rattle.std.specs.Prelude.{◌≡◌, ℕ, List, None, OnOk, Some, cond};
ghost use Rattle.std.specs.Str.{bytes_eq};
ghost use Rattle.cjc_components.specs.LowerCardSemantics.Machine.Classes.{or_else};
ghost use Rattle.cjc_classes.specs.ClassInfo.Refs.{ref_in, ref_of};

use cjc_bytes::NoMemory;
use cjc_components::capread::ClassRef;
use std::alloc::Global;
use std::collections::HashMap;

/// Of each name the class_ref of the class that components mean by it.
#[derive(Drop)]
pub struct ClassRefs {
    refs: HashMap<Vec<u8>, ClassRef>,
}

impl ClassRefs {
    /// No names. Takes no memory.
    pub fn new(alloc: Global) -> ClassRefs
        ensures { (x : List ℕ) → ref_in result x ≡ None }
    {
        ClassRefs {
            refs: HashMap::new(alloc),
        }
    }

    /// What is noted for a name.
    fn get(&self, name: &[u8]) -> Option<ClassRef>
        ensures { result ≡ ref_in self.now name.now }
    {
        self.refs.get(name).copied()
    }

    /// The class_ref of the class of a name; the offset 0 where no file has it.
    #[tactic(auto, unfolding(crate::specs::ClassInfo::Refs::ref_of))]
    pub fn named(&self, name: &[u8]) -> ClassRef
        ensures { result ≡ ref_of self.now name.now }
    {
        match self.get(name) {
            Some(class) => class,
            None => ClassRef::Inside(0),
        }
    }

    /// Puts a class_ref in the place of what is noted for a name.
    fn put(&mut self, alloc: Global, name: &[u8], class: ClassRef) -> Result<(), NoMemory>
        ensures { OnOk result ((x : List ℕ) → ref_in self.new x ≡ cond (bytes_eq name.now x) (Some class)
            (ref_in self.old x)) }
    {
        let name = Vec::from_slice(alloc, name)?;
        self.refs.insert(name, class)?;
        Ok(())
    }

    /// Notes the class_ref of a name, where none is noted.
    pub fn note(&mut self, alloc: Global, name: &[u8], class: ClassRef) -> Result<(), NoMemory>
        ensures { OnOk result ((x : List ℕ) → ref_in self.new x ≡ or_else (ref_in self.old x)
            (cond (bytes_eq name.now x) (Some class) None)) }
    {
        match self.get(name) {
            Some(_) => Ok(()),
            None => {
                self.put(alloc, name, class)?;
                Ok(())
            }
        }
    }
}
