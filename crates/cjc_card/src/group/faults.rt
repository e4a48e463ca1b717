//! The class names of the exceptions that the machine by token itself raises. The only place that knows these
//! names there.

ghost use Rattle.std.specs.Prelude.{◌≡◌};
ghost use Rattle.cjc_card_semantics.specs.Machine.Classes.{fault_name};
ghost use Rattle.cjc_card_frame.specs.Frame.Frames.{fault_of};

use cjc_card_frame::jvm_step::frame::Exception;

/// The name of the class of an exception.
pub(crate) fn fault_name(exception: Exception) -> &'static [u8]
    ensures { result.now ≡ fault_name (fault_of exception) }
{
    match exception {
        Exception::Arithmetic => b"java/lang/ArithmeticException",
        Exception::NullPointer => b"java/lang/NullPointerException",
        Exception::IndexOutside => b"java/lang/ArrayIndexOutOfBoundsException",
        Exception::NegativeSize => b"java/lang/NegativeArraySizeException",
        Exception::ClassCast => b"java/lang/ClassCastException",
        Exception::ArrayStore => b"java/lang/ArrayStoreException",
    }
}
