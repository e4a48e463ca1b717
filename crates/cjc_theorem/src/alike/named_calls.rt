//! That each call which the code of a converted package makes is one that calls can name, and takes the words
//! of its descriptor, put together from laws on each kind of call. For whoever promises that components run as
//! narrow code. It has a law alone; nothing here runs.

ghost use Rattle.std.specs.Prelude.{ℕ, List};
ghost use Rattle.cjc_components.specs.Package.{Package};
ghost use Rattle.cjc_shape_proof.specs.LowerJudge.declared.judged.Judged.{Judged};
ghost use Rattle.cjc_token_proof.specs.List.Listed.{ListTree};
ghost use Rattle.cjc_components.specs.Bytecode.declared.method_code.MethodCode.{MethodCode};
ghost use Rattle.cjc_shape_proof.specs.Written.Checked.{IsOfFiles};
ghost use Rattle.cjc_shape_proof.specs.Written.Converted.{IsConverted};
ghost use Rattle.cjc_theorem.specs.Alike.Opcodes.{CallsHaveOpcodes};
ghost use Rattle.cjc_token_proof.specs.WrittenSends.Named.{CallsAreNamed};

use crate::alike::{
    calls_have_opcodes, fixed_calls_are_named, fixed_calls_take_words, interface_calls_are_named,
    private_calls_are_named, super_calls_are_named, virtual_calls_are_named,
};

/// Each call in the code of a package names what calls can name, and takes the words of its descriptor, where code
/// names what its class files name, whichever methods are in int mode.
pub fn calls_of_files_are_named()
    ensures { (list : ListTree) (codes : List MethodCode) (p : Package) → IsOfFiles list codes p
        → CallsHaveOpcodes codes → CallsAreNamed p }
{
    fixed_calls_are_named();
    fixed_calls_take_words();
    interface_calls_are_named();
    private_calls_are_named();
    super_calls_are_named();
    virtual_calls_are_named();
}

/// So it is with a converted package.
pub fn calls_are_named()
    ensures { (list : ListTree) (files : List (List ℕ)) (judged : Judged) (p : Package)
        → IsConverted list files judged p → CallsAreNamed p }
{
    calls_have_opcodes();
    calls_of_files_are_named();
}
