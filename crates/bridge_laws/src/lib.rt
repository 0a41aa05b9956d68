//! Laws of bridges, as contracts: that the list of instructions of a function's bridge means what its call is defined
//! to do.
#![tactic(auto)]

ghost use Rattle.std.specs.Prelude.{ℕ, ◌≡◌, true, false, List, length, Some};
ghost use Rattle.edl_interface.specs.declared.Function.{Function};
ghost use Rattle.edl_interface.specs.Order.{AreInOrder};
ghost use Rattle.edl_interface.specs.Parameters.{has_frame};
ghost use Rattle.edl_interface.specs.Runnable.{IsRunnableFunction};
ghost use Rattle.enclave_memory.specs.Arguments.{Argument};
ghost use Rattle.call_machine.specs.declared.Machine.{Machine};
ghost use Rattle.call_machine.specs.Context.{Context};
ghost use Rattle.call_machine.specs.Ecall.{Ocalls, entry_at};
ghost use Rattle.call_machine.specs.Ocall.{Handlers, ocall_or_refusal};
ghost use Rattle.bridge_laws.specs.Examples.{Examples};
ghost use Rattle.bridge_program.specs.Lists.{ecall_list, ocall_list};
ghost use Rattle.bridge_laws.specs.Meaning.{entry_by_list};
ghost use Rattle.bridge_laws.specs.Proxy.{ocall_by_list, AreFieldsApart, AreFit};

/// The list of an ECALL's bridge does what an entry of its function is defined to do, whatever OCALLs do.
pub fn ecall_list_law()
    ensures { (m : Machine) (ocalls : Ocalls) (cx : Context) (ordinal address : ℕ) (f : Function)
        → IsRunnableFunction true f
        → entry_by_list m ocalls cx ordinal address f (ecall_list f) ≡ entry_at m ocalls cx ordinal address (Some f) }
{}

/// Without a frame, the list of an OCALL's proxy does what an OCALL of its function is defined to do.
pub fn bare_proxy_law()
    ensures { (m : Machine) (handlers : Handlers) (cx : Context)
        (ordinal : ℕ) (arguments : List Argument) (f : Function)
        → IsRunnableFunction false f → has_frame f ≡ false
        → ocall_by_list m handlers cx ordinal arguments f (ocall_list f)
        ≡ ocall_or_refusal m handlers cx ordinal arguments (Some f) }
{}

/// With a frame, the list of an OCALL's proxy does what an OCALL of its function is defined to do: for as many
/// arguments as parameters, where the fields of the structure lie apart.
pub fn proxy_list_law()
    ensures { (m : Machine) (handlers : Handlers) (cx : Context)
        (ordinal : ℕ) (arguments : List Argument) (f : Function)
        → has_frame f ≡ true → length f.params ≡ length arguments → AreFieldsApart f arguments
        → ocall_by_list m handlers cx ordinal arguments f (ocall_list f)
        ≡ ocall_or_refusal m handlers cx ordinal arguments (Some f) }
{}

/// Fields that lie one after another within the structure lie apart, for arguments that fit.
pub fn fields_apart_law()
    ensures { (arguments : List Argument) (f : Function)
        → AreFit f.params arguments → AreInOrder 0 f.frame_size f.params → AreFieldsApart f arguments }
{}

/// The list of an OCALL's proxy does what an OCALL of its function is defined to do, for arguments that fit and fields
/// that lie one after another within the structure, whatever handlers do.
pub fn ocall_list_law()
    ensures { (m : Machine) (handlers : Handlers) (cx : Context)
        (ordinal : ℕ) (arguments : List Argument) (f : Function)
        → IsRunnableFunction false f → AreFit f.params arguments → AreInOrder 0 f.frame_size f.params
        → ocall_by_list m handlers cx ordinal arguments f (ocall_list f)
        ≡ ocall_or_refusal m handlers cx ordinal arguments (Some f) }
{}

/// The lists of some functions, and the frames of two fields at one offset, as they are computed.
pub fn examples()
    ensures { Examples }
{}
