//! The texts of faults, by their codes.

ghost use Rattle.std.specs.Prelude.{◌≡◌};
ghost use Rattle.sgx_base.specs.Messages.{edl_message as edl_text, script_message as script_text};

/// What is wrong where an EDL file breaks the rule of this code, E1 to E40; nothing for another code.
pub fn edl_message(code: u8) -> &'static str
    ensures { result.now ≡ edl_text code }
{
    if code == 0 {
        return "";
    }
    if 40 < code {
        return "";
    }
    match code {
        1 => "byte not allowed",
        2 => "comment not closed",
        3 => "text not closed",
        4 => "number too wide",
        5 => "too many tokens",
        6 => "unexpected token or end",
        7 => "declaration too deep",
        8 => "import cycle",
        9 => "no such function",
        10 => "name declared in two files",
        11 => "too many files",
        12 => "unknown type",
        13 => "type holds itself",
        14 => "type or frame too large",
        15 => "pointer needs a direction or user_check",
        16 => "direction with user_check",
        17 => "size or count with a string",
        18 => "string with wstring",
        19 => "string needs in",
        20 => "pointer attribute on a plain value",
        21 => "unknown attribute",
        22 => "attribute given twice",
        23 => "sizefunc is not supported",
        24 => "size or count on an array",
        25 => "unknown parameter",
        26 => "parameter is not an integer",
        27 => "void pointer needs size",
        28 => "string on another type",
        29 => "array without a length",
        30 => "array of pointers",
        31 => "name given twice",
        32 => "unknown function in allow",
        33 => "no public ECALL",
        34 => "switchless ECALL must be public",
        35 => "allow on a switchless OCALL",
        36 => "readonly needs isptr",
        37 => "isptr or isary on a type that is not foreign",
        38 => "the runner does not take this",
        39 => "too many parameters",
        _ => "too many functions",
    }
}

/// What is wrong where a script breaks the rule of this code, S1 to S20; nothing for another code.
pub fn script_message(code: u8) -> &'static str
    ensures { result.now ≡ script_text code }
{
    if code == 0 {
        return "";
    }
    if 20 < code {
        return "";
    }
    match code {
        1 => "line not understood",
        2 => "number out of range",
        3 => "setting given twice",
        4 => "address outside host memory",
        5 => "unknown function",
        6 => "wrong arguments",
        7 => "value does not fit",
        8 => "unknown name in body",
        9 => "skip past the end",
        10 => "no such cell",
        11 => "given twice",
        12 => "block not closed or not begun",
        13 => "races out of order",
        14 => "not for this program",
        15 => "call in a switchless handler",
        16 => "too many",
        17 => "stacks do not fit",
        18 => "bad hex",
        19 => "only with a frame",
        _ => "setting too late",
    }
}
