//! What calls name is found and reaches code with tables, and the machine's own exceptions are imported, in a
//! package that breaks no rule over sound export files, as whole runs ask it. Definitions and laws alone:
//! nothing here runs.
ghost use Rattle.std.specs.Prelude.{◌≡◌, ℕ, Bool, List};
ghost use Rattle.cjc_bytes.specs.declared.fault.MemberId.{MemberId};
ghost use Rattle.cjc_bytes.specs.declared.settings.Settings.{Settings};
ghost use Rattle.cjc_classes.specs.JvmSemantics.Linked.{Method};
ghost use Rattle.cjc_classes.specs.JvmSemantics.Effects.{Fault, exception_class};
ghost use Rattle.cjc_world.specs.ClassFile.declared.tree.ClassTree.{ClassTree};
ghost use Rattle.cjc_components.specs.Bytecode.Jvm as jvm;
ghost use Rattle.cjc_components.specs.Bytecode.declared.insn.JOp.TheVariants as jop;
ghost use Rattle.cjc_components.specs.Bytecode.declared.method_code.MethodCode.{MethodCode};
ghost use Rattle.cjc_shape_proof.specs.Whole.{Accepts, HoldsFor, IsWhole};
ghost use Rattle.cjc_narrow_proof.specs.Laws.Unbroken.{IsInsnOf};
ghost use Rattle.cjc_narrow_proof.specs.Runs.Calls.{IsReceiverOn, IsStaticOn};
ghost use Rattle.cjc_narrow_proof.specs.Runs.Converted.{IsConverted, IsException, IsFirst, IsFound};
ghost use Rattle.cjc_narrow_proof.specs.Runs.Names.{AreNamed, IsFieldOf};
ghost use Rattle.cjc_narrow_proof.specs.Runs.Tables.{HasTables, Tables, look_ups};
ghost use Rattle.cjc_classes.specs.Types.Flow.{Body};
ghost use Rattle.cjc_classes.specs.Types.declared.cell.Cell.{Cell};
ghost use Rattle.cjc_world.specs.Classes.{all_classes};
ghost use Rattle.cjc_world.specs.Files.{Files};
ghost use Rattle.cjc_world.specs.declared.image.StaticImage.{StaticImage};

/// The exceptions of the machine's own are imported classes below java/lang/Throwable.
pub fn own_exceptions_are_imported()
    ensures { (list : List ℕ) (files : Files) (codes : List MethodCode) (settings : Settings) (tables : Tables)
        → IsWhole list files codes settings tables
        → (fault : Fault) → IsException (all_classes files) (exception_class fault) }
{}

/// A static call in the package's code reaches a method with tables, or an imported one.
pub fn static_calls_reach_methods()
    ensures { (list : List ℕ) (files : Files) (codes : List MethodCode) (settings : Settings) (tables : Tables)
        → IsWhole list files codes settings tables
        → (class : ClassTree) (id : MemberId) → IsInsnOf files codes class (jop.Call jvm.invokestatic id)
        → IsStaticOn files tables id }
{}

/// A call on a receiver in the package's code reaches a method with tables, or an imported one, on every object
/// or array that may be its receiver by a type table that breaks no rule there.
pub fn receivers_have_their_methods()
    ensures virtually { (list : List ℕ) (files : Files) (codes : List MethodCode) (settings : Settings)
        (tables : Tables) → IsWhole list files codes settings tables
        → (image : StaticImage) (near : List MemberId) (b : Body) (stack : List Cell) (class : ClassTree)
        (id : MemberId) → IsInsnOf files codes class (jop.Call jvm.invokevirtual id)
        → Accepts files b jvm.invokevirtual id stack
        → IsReceiverOn files (look_ups files image near tables) tables class.name stack jvm.invokevirtual id }
    ensures specially { (list : List ℕ) (files : Files) (codes : List MethodCode) (settings : Settings)
        (tables : Tables) → IsWhole list files codes settings tables
        → (image : StaticImage) (near : List MemberId) (b : Body) (stack : List Cell) (class : ClassTree)
        (id : MemberId) → b.class ≡ class.name → IsInsnOf files codes class (jop.Call jvm.invokespecial id)
        → Accepts files b jvm.invokespecial id stack
        → IsReceiverOn files (look_ups files image near tables) tables class.name stack jvm.invokespecial id }
    ensures by_interface { (list : List ℕ) (files : Files) (codes : List MethodCode) (settings : Settings)
        (tables : Tables) → IsWhole list files codes settings tables
        → (image : StaticImage) (near : List MemberId) (b : Body) (stack : List Cell) (class : ClassTree)
        (id : MemberId) → IsInsnOf files codes class (jop.Call jvm.invokeinterface id)
        → Accepts files b jvm.invokeinterface id stack
        → IsReceiverOn files (look_ups files image near tables) tables class.name stack jvm.invokeinterface id }
{}

/// For what a script names no method is found, or what the package declares: its types are one word each and
/// name what is there, and the methods that begin have tables, on objects of the classes that declare them.
pub fn script_members_are_found()
    ensures { (list : List ℕ) (files : Files) (codes : List MethodCode) (settings : Settings) (tables : Tables)
        → IsWhole list files codes settings tables
        → (image : StaticImage) (near : List MemberId) (id : MemberId)
        → IsFound files (look_ups files image near tables) tables id }
{}

/// A field of objects that the package's code names is found, and what may be its receiver by a type table that
/// breaks no rule there has it.
pub fn receivers_have_their_fields()
    ensures { (list : List ℕ) (files : Files) (codes : List MethodCode) (settings : Settings) (tables : Tables)
        → IsWhole list files codes settings tables
        → (image : StaticImage) (near : List MemberId) (class : ClassTree) (put : Bool) (id : MemberId)
        → IsInsnOf files codes class (jop.Field put id) → (cell : Cell) → HoldsFor files id.class cell
        → (m : Method) → (f : MemberId) × IsFieldOf files image near tables m id f cell }
{}

/// So the package is one whose narrow code runs as its class files, for every script, where what the
/// instructions of its methods name fits their types, and what the image says is of sound types.
pub fn whole_packages_are_converted()
    ensures { (list : List ℕ) (files : Files) (codes : List MethodCode) (settings : Settings) (tables : Tables)
        → IsWhole list files codes settings tables
        → (image : StaticImage) (near : List MemberId) → ((m : Method) → HasTables files tables m
        → AreNamed files image near tables m) → IsFirst (look_ups files image near tables) files image
        → IsConverted files image near tables }
{}
