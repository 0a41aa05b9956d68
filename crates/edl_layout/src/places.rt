//! The places of faults.

ghost use Rattle.std.specs.Prelude.{◌≡◌, slice_get, option_and_then};
ghost use Rattle.std.specs.Option.{option_copied};
ghost use Rattle.edl_grammar.specs.Files.{fault_in};

use crate::LayoutFault;
use edl_grammar::Gathered;
use edl_lexer::Token;
use sgx_base::Fault;

fn token_at(gathered: &Gathered, file: u32, token: u32) -> Option<&Token>
    ensures { option_copied result ≡ option_and_then (λ f. slice_get f.tokens token)
        (slice_get gathered.now.files file) }
{
    let file = gathered.files.get(file as usize)?;
    file.tokens.get(token as usize)
}

/// The fault with this code at a token of a file, or at line 0 where there is no such token.
pub fn fault_at(gathered: &Gathered, file: u32, token: u32, code: u8) -> Fault
    ensures { result ≡ fault_in gathered.now file token code }
{
    match token_at(gathered, file, token) {
        Some(token) => Fault {
            file,
            line: token.line,
            column: token.column,
            code,
        },
        None => Fault {
            file,
            line: 0,
            column: 0,
            code,
        },
    }
}

/// The fault of a type that is not declared, at this token.
pub(crate) fn unknown_at(gathered: &Gathered, file: u32, token: u32) -> LayoutFault
    ensures { result ≡ LayoutFault.Unknown (fault_in gathered.now file token 12) }
{
    LayoutFault::Unknown(fault_at(gathered, file, token, 12))
}

/// The fault of a type that holds itself, at this token.
pub(crate) fn self_holding_at(gathered: &Gathered, file: u32, token: u32) -> LayoutFault
    ensures { result ≡ LayoutFault.SelfHolding (fault_in gathered.now file token 13) }
{
    LayoutFault::SelfHolding(fault_at(gathered, file, token, 13))
}

/// The fault of what is too large, at this token.
pub(crate) fn too_large_at(gathered: &Gathered, file: u32, token: u32) -> LayoutFault
    ensures { result ≡ LayoutFault.TooLarge (fault_in gathered.now file token 14) }
{
    LayoutFault::TooLarge(fault_at(gathered, file, token, 14))
}
