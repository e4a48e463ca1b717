//! Methods that are cut into headers and whole instructions, as the card runs them. It has laws alone, for whoever
//! proves that components which break no rule are never stuck.
ghost use Rattle.std.specs.Prelude.{◌≡◌, ℕ, suc, ◌+◌, List, [], ◌++◌, length, slice_get, Some};
ghost use Rattle.cjc_check_rules.specs.CapRead.Decode.{Instruction, decode, size};
ghost use Rattle.cjc_check_rules.specs.CapRead.declared.tree.MethodDescriptor.{MethodDescriptor};
ghost use Rattle.cjc_check_rules.specs.Codes.{Code as Cut, codes, whole_spots};
ghost use Rattle.cjc_check_rules.specs.Complete.{Complete};
ghost use Rattle.cjc_check_rules.specs.Members.{class_methods};
ghost use Rattle.cjc_check_rules.specs.Spots.{Placed};
ghost use Rattle.cjc_card_semantics.specs.Bytecode.Machine.{Start};
ghost use Rattle.cjc_card_semantics.specs.Machine.Loaded.{Loaded, Part};
ghost use Rattle.cjc_card_semantics.specs.Machine.Methods.{Code, fetch, fetched_as, start_at, start_in};
ghost use Rattle.cjc_cut_proof.specs.Cuts.{AreOf, IsMethodAt};

/// An instruction is decoded whatever stands behind it, and has its bytes at the front.
pub fn instructions_stand_alone()
    ensures { (xs ys : List ℕ) (i : Instruction) → decode xs ≡ Some i → (decode (xs ++ ys) ≡ Some i)
        × (rest : List ℕ) × (length xs ≡ size i + length rest) }
{}

/// Where the methods are cut whole, each method of a class that Descriptor lists has a code beside it, behind its
/// header.
pub fn methods_have_codes()
    ensures { (c : Complete) → whole_spots c ≡ [] → (k : ℕ) (m : MethodDescriptor) → slice_get (class_methods c) k
        ≡ Some m → (code : Cut) × (slice_get (codes c) k ≡ Some code) × IsMethodAt c m code }
{}

/// The method that the card finds at an offset is the one that is cut there, and there is no other.
pub fn methods_begin_there()
    ensures each { (c : Complete) → whole_spots c ≡ [] → (part : Part) → AreOf part c → (p k : ℕ) (m : MethodDescriptor)
        → slice_get (class_methods c) k ≡ Some m → (code : Cut) → (at : IsMethodAt c m code) → start_in p m.offset part
        ≡ Some (start_at p m.offset (let i = at.is_cut in i.header) m) }
    ensures only { (c : Complete) → whole_spots c ≡ [] → (part : Part) → AreOf part c → (p offset : ℕ) (s : Start Code)
        → start_in p offset part ≡ Some s → (k : ℕ) × (m : MethodDescriptor) × (slice_get (class_methods c) k ≡ Some m)
        × (m.offset ≡ offset) }
{}

/// Each instruction that is cut is fetched at its offset, and the next one begins where it ends.
pub fn instructions_are_fetched()
    ensures fetched { (c : Complete) → whole_spots c ≡ [] → (part : Part) → AreOf part c → (l : Loaded) (p room : ℕ)
        → slice_get l.parts p ≡ Some part → (m : MethodDescriptor) (code : Cut) (at : IsMethodAt c m code) → (k : ℕ)
        (i : Placed Instruction) → slice_get code.instructions k ≡ Some i → (let h = (let x = at.is_cut in x.header)
        in fetch l (record {
          part = p;
          room = room;
          first = m.offset + h.size;
          end = m.offset + h.size + m.bytecode_count;
        }) i.at) ≡ Some (fetched_as l p part.pool i.at i.item) }
    ensures next { (c : Complete) (m : MethodDescriptor) (code : Cut) → IsMethodAt c m code → (k : ℕ)
        (i j : Placed Instruction) → slice_get code.instructions k ≡ Some i → slice_get code.instructions (suc k)
        ≡ Some j → j.at ≡ i.at + size i.item }
{}
