//! Broken rules, and the first of them.

ghost use Rattle.std.specs.Prelude.{◌≡◌, if◌then◌else◌, Some, None, option_map};
ghost use Rattle.attr_terms.specs.Rules as rules;
ghost use Rattle.broken_rules.specs.Breaches as breaches;

use attr_terms::Broken;

/// A rule of a declaration that is broken: its code, and the token at which it is.
#[derive(Clone, Copy, Debug, PartialEq, Eq)]
pub struct Breach {
    pub code: u8,
    pub token: u32,
}

impl Breach {
    pub fn in_file(self, file: u32) -> Broken
        ensures { result ≡ breaches.in_file file self }
    {
        Broken {
            file,
            token: self.token,
            code: self.code,
        }
    }
}

/// The rule of this code, where it is broken.
pub fn row(code: u8, is_broken: bool, token: u32) -> Option<Breach>
    ensures { result ≡ breaches.breach_of (rules.row code is_broken token) }
{
    if is_broken {
        Some(Breach { code, token })
    } else {
        None
    }
}

/// The rule of this code, where there is a token at which it is broken.
pub fn row_at(code: u8, token: Option<u32>) -> Option<Breach>
    ensures { result ≡ breaches.breach_at code token }
{
    match token {
        Some(token) => Some(Breach { code, token }),
        None => None,
    }
}

/// A broken rule of a declaration of this file.
pub fn broken_at(file: u32, breach: Option<Breach>) -> Option<Broken>
    ensures { result ≡ option_map (breaches.in_file file) breach }
{
    match breach {
        Some(breach) => Some(breach.in_file(file)),
        None => None,
    }
}
