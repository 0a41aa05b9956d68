//! The C files of an interface, printed from the instructions of its bridges.
#![tactic(auto)]

ghost use Rattle.std.specs.Prelude.{◌≡◌, IfOk};
ghost use Rattle.edl_interface.specs.Sound.{IsSound};
ghost use Rattle.bridge_program.specs.Tables.{bridges_of};
ghost use Rattle.stub_printer.specs.Stubs.{stub_text};

mod functions;
mod headers;
mod includes;
mod named;
mod prototypes;
mod trusted_source;
mod untrusted_source;

use crate::headers::{trusted_header, untrusted_header};
use crate::trusted_source::trusted_source;
use crate::untrusted_source::untrusted_source;
use bridge_program::Bridges;
use edl_grammar::Gathered;
use edl_interface::Interface;
use sgx_base::Name;
use std::alloc::{AllocError, Global};

/// Which of the four files.
#[derive(Clone, Copy, Debug, PartialEq, Eq)]
pub enum Which {
    TrustedHeader,
    TrustedSource,
    UntrustedHeader,
    UntrustedSource,
}

/// The name of the files, and whether it stands before the names of the untrusted proxies.
#[derive(Debug, Drop)]
pub struct Options {
    pub name: Name,
    pub prefix: bool,
}

/// The text of one of the four files. Bridges and proxies are printed from the lists of the tables, an instruction at
/// a time.
pub fn print_stub(
    alloc: Global,
    bridges: &Bridges,
    gathered: &Gathered,
    interface: &Interface,
    which: Which,
    options: &Options,
) -> Result<Vec<u8>, AllocError>
    requires tables { bridges.now ≡ bridges_of interface.now }
    requires sound { IsSound interface.now }
    ensures { IfOk result (λ text. text.items ≡ stub_text gathered.now interface.now options.now which) }
{
    match which {
        Which::TrustedHeader => trusted_header(alloc, gathered, options),
        Which::TrustedSource => trusted_source(alloc, bridges, gathered, interface, options),
        Which::UntrustedHeader => untrusted_header(alloc, gathered, options),
        Which::UntrustedSource => untrusted_source(alloc, gathered, options),
    }
}
