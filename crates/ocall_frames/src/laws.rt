//! Laws of the frames of OCALLs, as contracts.

ghost use Rattle.std.specs.Prelude.{ℕ, List, ◌≡◌, ◌≤◌, ◌+◌, Some, length, slice_get};
ghost use Rattle.edl_interface.specs.declared.Function.{Function};
ghost use Rattle.edl_interface.specs.Parameters.{marshalled};
ghost use Rattle.enclave_memory.specs.Arguments.{Argument, Passed, places_in};
ghost use Rattle.enclave_memory.specs.Memory.{Memory};
ghost use Rattle.word_port.specs.Accesses.{stores};
ghost use Rattle.word_port.specs.Interaction.{AllRequests};
ghost use Rattle.word_port.specs.Port.{PortState};
ghost use Rattle.word_port.specs.declared.Side.TheVariants.{Enclave};
ghost use Rattle.ocall_frames.specs.Frames.{frame_bytes, numbers_structure};
ghost use Rattle.ocall_frames.specs.Laws.{IsStoreIn, AreShownAlike, IsNotCopiedBack};
ghost use Rattle.ocall_frames.specs.Replies.{IsReplied};
ghost use Rattle.ocall_frames.specs.Stack.{frame_below};

/// Every store of a frame lies in the frame, and a frame that fits lies between the base of the host stack and its top.
pub fn frame_stores_law()
    ensures stores { (f : Function) (arguments : List Argument) (frame : ℕ)
        → AllRequests (IsStoreIn frame (length (frame_bytes f arguments frame)))
        (stores Enclave frame (frame_bytes f arguments frame)) }
    ensures region { (base top size frame : ℕ) → frame_below base top size ≡ Some frame
        → (base ≤ frame) × (frame + size ≤ top) }
{}

/// A frame depends on no byte but those that it shows: it is the same for arguments that have the same numbers, buffers
/// as long, and the same bytes in those that are copied in.
pub fn frame_secrecy_law()
    ensures { (f : Function) (arguments others : List Argument) (frame : ℕ)
        → AreShownAlike f (numbers_structure f arguments) f.params arguments others
        → frame_bytes f arguments frame ≡ frame_bytes f others frame }
{}

/// A reply changes no block but those that are handed over to be copied back.
pub fn reply_law()
    ensures { (f : Function) (passed : List Passed) (frame : ℕ) (old new : PortState) (before after : Memory)
        (value n : ℕ) → IsReplied f passed frame old new before after value
        → IsNotCopiedBack n (marshalled f) (places_in passed)
        → slice_get after.blocks n ≡ slice_get before.blocks n }
{}
