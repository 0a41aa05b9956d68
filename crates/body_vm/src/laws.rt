//! What holds of every body.

ghost use Rattle.std.specs.Prelude.{ℕ, zero, List, ◌∷◌, ◌≡◌, ◌≢◌, ◌<◌, ◌≤◌, ◌+◌, ◌*◌, ◌%◌, ◌^◌, false, Option, Some, None, drop, length, slice_get};
ghost use Rattle.body_vm.specs.declared.Operand.{Operand};
ghost use Rattle.body_vm.specs.declared.Action.{Action};
ghost use Rattle.body_vm.specs.declared.Action.TheVariants.{Add as AddTo, Sub as SubFrom, Mul as MulBy, Get as GetByte, Put as PutByte, Temp as NewBlock, Skipz as SkipIfZero, Skipnz as SkipUnlessZero};
ghost use Rattle.body_vm.specs.State.{State, operand as operand_in, register as register_in, block as block_in, with_register};
ghost use Rattle.body_vm.specs.Execution.{execution_from, execution};
ghost use Rattle.body_vm.specs.Steps.{computed as computed_in, changed, skipped as skipped_in, is_asking, block_length, AsksAtMost};

/// An action that sets a register by itself, one that changes blocks or passes over actions, and one that asks: an
/// execution goes on from what the first two leave.
pub fn step_law()
    ensures computes { (s : State) (action : Action) (rest : List Action) (p : ℕ × ℕ) → computed_in s action ≡ Some p
        → execution_from s zero (action ∷ rest) ≡ execution_from (with_register s p.0 p.1) zero rest }
    ensures changes { (s : State) (action : Action) (rest : List Action)
        → computed_in s action ≡ None → is_asking action ≡ false
        → execution_from s zero (action ∷ rest)
        ≡ execution_from (changed s action) zero (drop (skipped_in s action) rest) }
{}

/// Arithmetic is modulo 2^64, and a difference is what a sum with the operand leads back from.
pub fn arithmetic_law()
    ensures sum { (s : State) (r n : ℕ) (v : Operand) → computed_in s (AddTo r v) ≡ Some (r, n)
        → (n < 2 ^ 64) × (n ≡ (register_in s r + operand_in s v) % 2 ^ 64) }
    ensures difference { (s : State) (r n : ℕ) (v : Operand) → register_in s r < 2 ^ 64 → operand_in s v < 2 ^ 64
        → computed_in s (SubFrom r v) ≡ Some (r, n)
        → (n < 2 ^ 64) × ((n + operand_in s v) % 2 ^ 64 ≡ register_in s r) }
    ensures product { (s : State) (r n : ℕ) (v : Operand) → computed_in s (MulBy r v) ≡ Some (r, n)
        → (n < 2 ^ 64) × (n ≡ (register_in s r * operand_in s v) % 2 ^ 64) }
{}

/// An action changes no block's length but by a `temp` of that block, and at most one block; it leaves the registers.
pub fn blocks_law()
    ensures lengths { (s : State) (action : Action) (place : ℕ) → ((n : ℕ) → action ≢ NewBlock place n)
        → block_length (changed s action) place ≡ block_length s place }
    ensures one { (s : State) (action : Action)
        → (place : ℕ) × ((other : ℕ) → other ≢ place
        → slice_get (changed s action).blocks other ≡ slice_get s.blocks other) }
    ensures registers { (s : State) (action : Action) → (changed s action).registers ≡ s.registers }
{}

/// Bytes past the end of a block, or of a null block, read as 0 and are not written.
pub fn past_the_end_law()
    ensures read { (s : State) (r b : ℕ) (v : Operand) → length (block_in s b) ≤ operand_in s v
        → computed_in s (GetByte r b v) ≡ Some (r, 0) }
    ensures write { (s : State) (b : ℕ) (v w : Operand) → length (block_in s b) ≤ operand_in s v
        → changed s (PutByte b v w) ≡ s }
{}

/// A skip passes over exactly as many actions as it says, where its register is 0, or is not 0, and else over none.
pub fn skip_law()
    ensures at_zero { (s : State) (r n : ℕ) (rest : List Action) → register_in s r ≡ 0
        → execution_from s zero (SkipIfZero r n ∷ rest) ≡ execution_from s zero (drop n rest) }
    ensures not_at_zero { (s : State) (r n : ℕ) (rest : List Action) → 0 < register_in s r
        → execution_from s zero (SkipIfZero r n ∷ rest) ≡ execution_from s zero rest }
    ensures at_more { (s : State) (r n : ℕ) (rest : List Action) → 0 < register_in s r
        → execution_from s zero (SkipUnlessZero r n ∷ rest) ≡ execution_from s zero (drop n rest) }
    ensures not_at_more { (s : State) (r n : ℕ) (rest : List Action) → register_in s r ≡ 0
        → execution_from s zero (SkipUnlessZero r n ∷ rest) ≡ execution_from s zero rest }
{}

/// Whatever is answered, a body asks for at most as many things as it has actions, and returns.
pub fn requests_law()
    ensures { (actions : List Action) (values : List ℕ) (blocks : List (Option (List ℕ))) (room : ℕ)
        → AsksAtMost (length actions) (execution actions values blocks room) }
{}
