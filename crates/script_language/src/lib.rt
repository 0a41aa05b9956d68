//! What a user may rest on in the language of scripts, as contracts.
#![tactic(auto)]

ghost use Rattle.std.specs.Prelude.{ℕ, ◌+◌, ◌≡◌, ◌≤◌, ◌∷◌, ◌++◌, Bool, true, false, List, length, map, Ok, Err, Some, if◌then◌else◌};
ghost use Rattle.edl_interface.specs.declared.Interface.{Interface};
ghost use Rattle.call_script.specs.declared.Script.{Script};
ghost use Rattle.call_script.specs.declared.ScriptFault.TheVariants.{Rule};
ghost use Rattle.call_script.specs.Spelling.{lines, means_nothing, words};
ghost use Rattle.call_script.specs.Block.{placed_lines};
ghost use Rattle.call_script.specs.Faults.{Fault, script_fault};
ghost use Rattle.call_script.specs.Reading.{Reads, script_of};
ghost use Rattle.script_language.specs.Said.{said, moved, exchanged, is_refused_at, ChangePlaces};

/// A text is read in one way: two readings that did not want for memory give the same script, or the same fault.
pub fn one_reading_law()
    ensures script { (i : Interface) (racing : Bool) (bytes : List ℕ) (s t : Script)
        → Reads (script_of i racing bytes) (Ok s) → Reads (script_of i racing bytes) (Ok t) → s ≡ t }
    ensures fault { (i : Interface) (racing : Bool) (bytes : List ℕ) (n m code other : ℕ)
        → Reads (script_of i racing bytes) (Err (Rule n code)) → Reads (script_of i racing bytes) (Err (Rule m other))
        → (n ≡ m) × (code ≡ other) }
    ensures either { (i : Interface) (racing : Bool) (bytes : List ℕ) (s : Script) (n code : ℕ)
        → Reads (script_of i racing bytes) (Ok s) → Reads (script_of i racing bytes) (Err (Rule n code)) → ⊥ }
{}

/// A fault is at a line that the text has, or at 0.
pub fn fault_line_law()
    ensures { (i : Interface) (racing : Bool) (bytes : List ℕ) (fault : Fault)
        → script_fault i racing (placed_lines bytes) ≡ Some fault → fault.line ≤ length (lines bytes) }
{}

/// What stands in a comment, and how many blanks stand where, changes nothing: of two texts that say the same line by
/// line, each is the script that the other is, or has its fault.
pub fn silence_law()
    ensures { (i : Interface) (racing : Bool) (bytes other : List ℕ)
        → map said (lines bytes) ≡ map said (lines other) → script_of i racing bytes ≡ script_of i racing other }
{}

/// Two settings that stand one behind the other may change places: the text stays the same script, or keeps its fault at
/// the line where that now stands. But where the first of them was at fault, and the other is without it, the other's
/// is now the fault.
pub fn settings_order_law()
    ensures kept { (i : Interface) (racing : Bool) (before : List (List ℕ)) (x y : List ℕ) (behind : List (List ℕ))
        (bytes swapped : List ℕ) → ChangePlaces before x y behind bytes swapped
        → is_refused_at (length before + 1) (script_of i racing bytes) ≡ false
        → script_of i racing swapped ≡ exchanged (length before + 1) (script_of i racing bytes) }
    ensures first { (i : Interface) (racing : Bool) (before : List (List ℕ)) (x y : List ℕ) (behind : List (List ℕ))
        (bytes swapped without : List ℕ) → ChangePlaces before x y behind bytes swapped
        → lines without ≡ before ++ y ∷ behind
        → is_refused_at (length before + 1) (script_of i racing bytes) ≡ true
        → script_of i racing swapped
        ≡ (if is_refused_at (length before + 1) (script_of i racing without) then script_of i racing without
        else exchanged (length before + 1) (script_of i racing bytes)) }
{}

/// A blank line or a comment may be put in anywhere, or left out: the text stays the same script, or keeps its fault at
/// the line where that now stands.
pub fn blank_line_law()
    ensures { (i : Interface) (racing : Bool) (before : List (List ℕ)) (blank : List ℕ) (behind : List (List ℕ))
        (bytes longer : List ℕ) → means_nothing (words blank) ≡ true
        → lines bytes ≡ before ++ behind → lines longer ≡ before ++ blank ∷ behind
        → script_of i racing longer ≡ moved (length before) (script_of i racing bytes) }
{}
