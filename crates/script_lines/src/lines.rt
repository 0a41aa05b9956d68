//! The line that words are in a scope.

ghost use Rattle.std.specs.Prelude.{◌≡◌, ◌∷◌, ◌&&◌, option_map, codes};
ghost use Rattle.std.specs.Str.{bytes_eq};
ghost use Rattle.call_script.specs.Block as block;
ghost use Rattle.script_lines.specs.Shapes.{is_ended};
ghost use Rattle.script_lines.specs.Tables as spec;
ghost use Rattle.script_lines.specs.Lines as lines;

use crate::actions::body_line;
use crate::acts::{act, racer_act};
use crate::declarations::declaration;
use crate::line::{Line, Scope};
use crate::settings::setting_line;
use crate::shapes::{is_ended, says};
use script_words::Words;

/// The line of the scope itself that begins with this word, and goes on with these.
#[tactic(auto, using(crate::proofs::ScopeLaws::own_lines))]
fn own_line<'a>(scope: Scope, word: &[u8], words: &mut Words<'a>) -> Option<Line<'a>>
    ensures { option_map lines.line_of result ≡ spec.own_line (lines.scope_of scope.entry) (word.now ∷ words.old) }
{
    match scope {
        Scope::Outside => match declaration(word, &mut words.again()) {
            Some(line) => Some(line),
            None => act(word, words),
        },
        Scope::InBody { .. } => body_line(word, words),
        Scope::InHandler { .. } => act(word, words),
        Scope::InThread => act(word, words),
        Scope::InRacer => racer_act(word, words),
    }
}

/// Whether these words are `}` alone.
fn closes(word: &[u8], words: &Words) -> bool
    ensures { result ≡ bytes_eq (codes "}") word.now && is_ended words.now }
{
    says(word, b"}") && is_ended(&mut words.again())
}

/// The line that the words are in a scope, by its form alone. A setting has its form everywhere.
pub fn line_in<'a>(scope: Scope, words: &mut Words<'a>) -> Option<Line<'a>>
    ensures { option_map lines.line_of result ≡ block.line_in (lines.scope_of scope.entry) words.old }
{
    let Some(word) = words.next() else {
        return None;
    };
    if closes(word, words) {
        return Some(Line::Close);
    }
    if let Some(line) = setting_line(word, &mut words.again()) {
        return Some(line);
    }
    own_line(scope, word, words)
}
