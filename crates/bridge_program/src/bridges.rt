//! The tables of an interface's functions: what an entry is checked by, and the instructions of each bridge.
ghost use Rattle.std.specs.Prelude.{◌≡◌, ◌==◌, Some, IsSome};
ghost use Rattle.std.specs.List.{list_any};

use crate::Instr;
use sqlite_items::Items;

/// An ECALL: whether it may be entered in an OCALL alone, and its bridge.
#[derive(Debug, Drop)]
pub struct EcallBridge {
    pub is_private: bool,
    pub list: Items<Instr>,
}

/// An OCALL: the ordinals of the ECALLs that may be entered in it, and its proxy.
#[derive(Debug, Drop)]
pub struct OcallBridge {
    pub allow: Items<u32>,
    pub list: Items<Instr>,
}

impl OcallBridge {
    /// Whether an ECALL may be entered in it.
    fn allows(&self, ordinal: u32) -> bool
        ensures { result ≡ list_any (λ k. k == ordinal) self.now.allow }
    {
        self.allow
            .as_slice()
            .iter()
            .any(|allowed| *allowed == ordinal)
    }
}

/// The functions of an interface as an enclave has them, each at its ordinal.
#[derive(Debug, Drop)]
pub struct Bridges {
    pub(crate) ecalls: Items<EcallBridge>,
    pub(crate) ocalls: Items<OcallBridge>,
}

impl Bridges {
    ghost use Rattle.bridge_program.specs.Tables.{list_of, is_allowed_by};

    /// The instructions of a function: of an ECALL where `trusted` holds, of an OCALL where not.
    pub fn list(&self, trusted: bool, ordinal: u32) -> &[Instr]
        requires { IsSome (list_of self.now trusted ordinal) }
        ensures { list_of self.now trusted ordinal ≡ Some result.now }
    {
        let place = ordinal as usize;
        if trusted {
            self.ecalls.as_slice()[place].list.as_slice()
        } else {
            self.ocalls.as_slice()[place].list.as_slice()
        }
    }

    /// Whether the OCALL of an ordinal allows an ECALL.
    pub(crate) fn allows(&self, ocall: u32, ordinal: u32) -> bool
        ensures { result ≡ is_allowed_by self.now ocall ordinal }
    {
        match self.ocalls.get(ocall as usize) {
            Some(bridge) => bridge.allows(ordinal),
            None => false,
        }
    }
}
