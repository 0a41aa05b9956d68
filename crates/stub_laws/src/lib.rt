//! Laws of printed bridges, as contracts: what an author may rely on in the text of the trusted source.
#![tactic(auto)]

ghost use Rattle.std.specs.Prelude.{ℕ, ◌≡◌, true, false, slice_get, Some, is_some, codes};
ghost use Rattle.edl_grammar.specs.declared.FuncDecl.{FuncDecl};
ghost use Rattle.edl_interface.specs.declared.Interface.{Interface};
ghost use Rattle.edl_interface.specs.declared.Function.{Function};
ghost use Rattle.edl_interface.specs.Parameters.{has_frame};
ghost use Rattle.bridge_program.specs.Tables.{bridges_of};
ghost use Rattle.stub_printer.specs.Stubs.{listed_text};
ghost use Rattle.stub_laws.specs.Words.{author_names};
ghost use Rattle.stub_laws.specs.Examples.{Examples};
ghost use Rattle.stub_laws.specs.Laws.{ReadsFrameOnce, ChecksPointersFirst, CopiesBackAfterCall};

/// A bridge reads its frame once, where no name of its author is `pms`.
pub fn frame_once_law()
    ensures { (i : Interface) (f : FuncDecl) (function : Function) (ordinal : ℕ)
        → slice_get i.ecalls ordinal ≡ Some function → has_frame function ≡ true
        → author_names (codes "pms") f ≡ false
        → ReadsFrameOnce (is_some function.ret) f (listed_text (bridges_of i) true ordinal f) }
{}

/// A bridge checks each pointer before it follows it, where no name of its author is `memcpy`, `strlen` or `wcslen`.
pub fn pointers_first_law()
    ensures { (i : Interface) (f : FuncDecl) (function : Function) (ordinal : ℕ)
        → slice_get i.ecalls ordinal ≡ Some function → has_frame function ≡ true
        → author_names (codes "memcpy") f ≡ false
        → author_names (codes "strlen") f ≡ false → author_names (codes "wcslen") f ≡ false
        → ChecksPointersFirst function f (listed_text (bridges_of i) true ordinal f) }
{}

/// A bridge copies back behind the call alone.
pub fn back_after_call_law()
    ensures { (i : Interface) (f : FuncDecl) (function : Function) (ordinal : ℕ)
        → slice_get i.ecalls ordinal ≡ Some function
        → CopiesBackAfterCall function f ordinal (listed_text (bridges_of i) true ordinal f) }
{}

/// The texts of the files of some interfaces, to the byte.
pub fn examples()
    ensures { Examples }
{}
