//! Templates: texts with places, each a dollar sign and a letter, and what stands there.

ghost use Rattle.std.specs.Prelude.{◌≡◌, ◌<◌, ◌≤◌, ◌==◌, ◌++◌, length, IfOk, OnOk, map};
ghost use Rattle.std.specs.List.{position, position_or_len};
ghost use Rattle.bridge_text.specs.Template.{seen, text_at as text_at_of, fill, line, filled_lines};

use std::alloc::AllocError;

/// What stands at a letter.
#[derive(Clone, Copy)]
pub struct Place<'a> {
    pub letter: u8,
    pub text: &'a [u8],
}

/// At a letter stands a text.
pub fn at<'a>(letter: u8, text: &'a [u8]) -> Place<'a>
    ensures { seen result ≡ record { letter = letter; text = text.now } }
{
    Place { letter, text }
}

/// What stands at a letter, and nothing where it has no place.
fn text_at<'a>(places: &[Place<'a>], letter: u8) -> &'a [u8]
    ensures { result.now ≡ text_at_of (map seen places.now) letter }
{
    match places {
        [] => b"",
        [place, rest @ ..] => {
            if place.letter == letter {
                place.text
            } else {
                text_at(rest, letter)
            }
        }
    }
}

fn first_dollar(template: &[u8]) -> Option<usize>
    ensures { result ≡ position (λ byte. byte == 36) template.now }
{
    template.iter().position(|byte| *byte == b'$')
}

/// How many bytes stand before the first dollar sign.
#[tactic(auto, using(crate::proofs::FillLaws::some_plain, crate::proofs::FillLaws::all_plain))]
fn plain_len(template: &[u8]) -> usize
    ensures exact { result ≡ position_or_len (λ byte. byte == 36) template.now }
    ensures within { result ≤ length template.now }
{
    match first_dollar(template) {
        Some(at) => at,
        None => template.len(),
    }
}

/// Appends what stands at the place that a template begins with, and gives what is left.
#[tactic(auto, unfolding(crate::specs::Template::fill))]
fn put_place<'a>(
    out: &mut Vec<u8>,
    places: &[Place<'_>],
    template: &'a [u8],
) -> Result<&'a [u8], AllocError>
    requires { position_or_len (λ byte. byte == 36) template.now ≡ 0 }
    ensures text { IfOk result (λ rest. out.new.items ++ fill (map seen places.now) rest.now
        ≡ out.old.items ++ fill (map seen places.now) template.now) }
    ensures less { IfOk result (λ rest. 0 < length template.now → length rest.now < length template.now) }
{
    match template {
        [] => Ok(template),
        [last] => {
            out.push(*last)?;
            Ok(&template[1..])
        }
        [_, letter, rest @ ..] => {
            out.extend_from_slice(text_at(places, *letter))?;
            Ok(rest)
        }
    }
}

/// Appends a template up to its first place, or what stands there where it begins with it, and gives what is left.
#[tactic(auto, using(crate::proofs::FillLaws::passed))]
fn put_first<'a>(
    out: &mut Vec<u8>,
    places: &[Place<'_>],
    template: &'a [u8],
) -> Result<&'a [u8], AllocError>
    requires { 0 < length template.now }
    ensures text { IfOk result (λ rest. out.new.items ++ fill (map seen places.now) rest.now
        ≡ out.old.items ++ fill (map seen places.now) template.now) }
    ensures less { IfOk result (λ rest. length rest.now < length template.now) }
{
    let (plain, rest) = template.split_at(plain_len(template));
    if plain.is_empty() {
        return put_place(out, places, template);
    }
    out.extend_from_slice(plain)?;
    Ok(rest)
}

/// Appends the template with each place filled.
#[tactic(auto, unfolding(crate::specs::Template::fill))]
pub(crate) fn put(
    out: &mut Vec<u8>,
    places: &[Place<'_>],
    template: &[u8],
) -> Result<(), AllocError>
    ensures { OnOk result (out.new.items ≡ out.old.items ++ fill (map seen places.now) template.now) }
{
    let mut rest = template;
    while rest.len() > 0 {
        rest = put_first(out, places, rest)?;
    }
    Ok(())
}

/// Appends a line: the template with each place filled, and a line feed.
pub fn put_line(out: &mut Vec<u8>, places: &[Place<'_>], template: &str) -> Result<(), AllocError>
    ensures { OnOk result (out.new.items ≡ out.old.items ++ line (fill (map seen places.now) template.now)) }
{
    put(out, places, template.as_bytes())?;
    out.push(b'\n')?;
    Ok(())
}

/// Appends the templates, each a line of its own.
pub fn put_lines(
    out: &mut Vec<u8>,
    places: &[Place<'_>],
    templates: &[&str],
) -> Result<(), AllocError>
    ensures { OnOk result (out.new.items
        ≡ out.old.items ++ filled_lines (map seen places.now) (map (λ t. t.now) templates.now)) }
{
    for template in templates {
        put_line(out, places, template)?;
    }
    Ok(())
}
