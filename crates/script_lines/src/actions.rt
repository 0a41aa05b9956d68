//! What a body does, line by line.

ghost use Rattle.std.specs.Prelude.{◌≡◌, ◌∷◌, List, None, MatchOption, option_map, codes};
ghost use Rattle.call_script.specs.Spelling.{Word};
ghost use Rattle.script_lines.specs.Tables as spec;
ghost use Rattle.script_lines.specs.Lines as lines;

use crate::arguments::last_arguments;
use crate::line::{ActionWords, Calculation, Line};
use crate::shapes::{Shape, four, is_ended, one, says, three, two, word};
use script_words::Words;

/// The calculation of this name.
#[tactic(auto, using(crate::proofs::ShapeLaws::same_word, crate::proofs::ActionLaws::no_calculation))]
fn calculation(word: &[u8]) -> Option<Calculation>
    ensures { MatchOption result ((ws : List Word) → spec.calculation (word.now ∷ ws) ≡ None)
        (λ how. word.now ≡ lines.calculation_word how) }
{
    if says(word, b"set") {
        Some(Calculation::Set)
    } else if says(word, b"add") {
        Some(Calculation::Add)
    } else if says(word, b"sub") {
        Some(Calculation::Sub)
    } else if says(word, b"mul") {
        Some(Calculation::Mul)
    } else if says(word, b"and") {
        Some(Calculation::And)
    } else if says(word, b"or") {
        Some(Calculation::Or)
    } else if says(word, b"xor") {
        Some(Calculation::Xor)
    } else {
        None
    }
}

/// The calculation that begins with this word, and goes on with these.
#[tactic(auto, using(crate::proofs::ActionLaws::calculation_row))]
fn calculation_line<'a>(word: &[u8], words: &mut Words<'a>) -> Option<Line<'a>>
    ensures { option_map lines.line_of result ≡ spec.calculation (word.now ∷ words.old) }
{
    let calculation = calculation(word)?;
    let (register, value) = two(words, Shape::Any, Shape::Any)?;
    Some(Line::Do(ActionWords::Calculate {
        calculation,
        register,
        value,
    }))
}

/// `len REGISTER BLOCK`
#[tactic(auto, using(crate::proofs::ActionLaws::len_row))]
fn length<'a>(words: &mut Words<'a>) -> Option<Line<'a>>
    ensures { option_map lines.line_of result ≡ spec.on_block (codes "len" ∷ words.old) }
{
    let (register, block) = two(words, Shape::Any, Shape::Any)?;
    Some(Line::Do(ActionWords::Len { register, block }))
}

/// `sum REGISTER BLOCK`
#[tactic(auto, using(crate::proofs::ActionLaws::sum_row))]
fn sum<'a>(words: &mut Words<'a>) -> Option<Line<'a>>
    ensures { option_map lines.line_of result ≡ spec.on_block (codes "sum" ∷ words.old) }
{
    let (register, block) = two(words, Shape::Any, Shape::Any)?;
    Some(Line::Do(ActionWords::Sum { register, block }))
}

/// `get REGISTER BLOCK PLACE`
#[tactic(auto, using(crate::proofs::ActionLaws::get_row))]
fn get<'a>(words: &mut Words<'a>) -> Option<Line<'a>>
    ensures { option_map lines.line_of result ≡ spec.on_block (codes "get" ∷ words.old) }
{
    let (register, block, place) = three(words, Shape::Any, Shape::Any, Shape::Any)?;
    Some(Line::Do(ActionWords::Get {
        register,
        block,
        place,
    }))
}

/// `put BLOCK PLACE VALUE`
#[tactic(auto, using(crate::proofs::ActionLaws::put_row))]
fn put<'a>(words: &mut Words<'a>) -> Option<Line<'a>>
    ensures { option_map lines.line_of result ≡ spec.on_block (codes "put" ∷ words.old) }
{
    let (block, place, value) = three(words, Shape::Any, Shape::Any, Shape::Any)?;
    Some(Line::Do(ActionWords::Put {
        block,
        place,
        value,
    }))
}

/// `fill BLOCK VALUE`
#[tactic(auto, using(crate::proofs::ActionLaws::fill_row))]
fn fill<'a>(words: &mut Words<'a>) -> Option<Line<'a>>
    ensures { option_map lines.line_of result ≡ spec.on_block (codes "fill" ∷ words.old) }
{
    let (block, value) = two(words, Shape::Any, Shape::Any)?;
    Some(Line::Do(ActionWords::Fill { block, value }))
}

/// `copy TARGET SOURCE`
#[tactic(auto, using(crate::proofs::ActionLaws::copy_row))]
fn copy<'a>(words: &mut Words<'a>) -> Option<Line<'a>>
    ensures { option_map lines.line_of result ≡ spec.on_block (codes "copy" ∷ words.old) }
{
    let (target, source) = two(words, Shape::Any, Shape::Any)?;
    Some(Line::Do(ActionWords::Copy { target, source }))
}

/// The action on a block that begins with this word, and goes on with these.
#[tactic(auto, using(crate::proofs::ShapeLaws::same_word, crate::proofs::ActionLaws::no_block_line))]
fn block_line<'a>(word: &[u8], words: &mut Words<'a>) -> Option<Line<'a>>
    ensures { option_map lines.line_of result ≡ spec.on_block (word.now ∷ words.old) }
{
    if says(word, b"len") {
        length(words)
    } else if says(word, b"sum") {
        sum(words)
    } else if says(word, b"get") {
        get(words)
    } else if says(word, b"put") {
        put(words)
    } else if says(word, b"fill") {
        fill(words)
    } else if says(word, b"copy") {
        copy(words)
    } else {
        None
    }
}

/// `cload REGISTER CELL`
#[tactic(auto, using(crate::proofs::ActionLaws::cload_row))]
fn cload<'a>(words: &mut Words<'a>) -> Option<Line<'a>>
    ensures { option_map lines.line_of result ≡ spec.on_cell (codes "cload" ∷ words.old) }
{
    let (register, cell) = two(words, Shape::Any, Shape::Number)?;
    Some(Line::Do(ActionWords::Cload { register, cell }))
}

/// `cswap REGISTER CELL VALUE`
#[tactic(auto, using(crate::proofs::ActionLaws::cswap_row))]
fn cswap<'a>(words: &mut Words<'a>) -> Option<Line<'a>>
    ensures { option_map lines.line_of result ≡ spec.on_cell (codes "cswap" ∷ words.old) }
{
    let (register, cell, value) = three(words, Shape::Any, Shape::Number, Shape::Any)?;
    Some(Line::Do(ActionWords::Cswap {
        register,
        cell,
        value,
    }))
}

/// `cadd REGISTER CELL VALUE`
#[tactic(auto, using(crate::proofs::ActionLaws::cadd_row))]
fn cadd<'a>(words: &mut Words<'a>) -> Option<Line<'a>>
    ensures { option_map lines.line_of result ≡ spec.on_cell (codes "cadd" ∷ words.old) }
{
    let (register, cell, value) = three(words, Shape::Any, Shape::Number, Shape::Any)?;
    Some(Line::Do(ActionWords::Cadd {
        register,
        cell,
        value,
    }))
}

/// `ccas REGISTER CELL EXPECTED VALUE`
#[tactic(auto, using(crate::proofs::ActionLaws::ccas_row))]
fn ccas<'a>(words: &mut Words<'a>) -> Option<Line<'a>>
    ensures { option_map lines.line_of result ≡ spec.on_cell (codes "ccas" ∷ words.old) }
{
    let (register, cell, expected, value) = four(
        words,
        Shape::Any,
        Shape::Number,
        Shape::Any,
        Shape::Any,
    )?;
    Some(Line::Do(ActionWords::Ccas {
        register,
        cell,
        expected,
        value,
    }))
}

/// The step on a cell that begins with this word, and goes on with these.
#[tactic(auto, using(crate::proofs::ShapeLaws::same_word, crate::proofs::ActionLaws::no_cell_line))]
fn cell_line<'a>(word: &[u8], words: &mut Words<'a>) -> Option<Line<'a>>
    ensures { option_map lines.line_of result ≡ spec.on_cell (word.now ∷ words.old) }
{
    if says(word, b"cload") {
        cload(words)
    } else if says(word, b"cswap") {
        cswap(words)
    } else if says(word, b"cadd") {
        cadd(words)
    } else if says(word, b"ccas") {
        ccas(words)
    } else {
        None
    }
}

/// `skipz REGISTER COUNT`
#[tactic(auto, using(crate::proofs::ActionLaws::skipz_row))]
fn skipz<'a>(words: &mut Words<'a>) -> Option<Line<'a>>
    ensures { option_map lines.line_of result ≡ spec.jump (codes "skipz" ∷ words.old) }
{
    let (register, count) = two(words, Shape::Any, Shape::Number)?;
    Some(Line::Do(ActionWords::Skipz { register, count }))
}

/// `skipnz REGISTER COUNT`
#[tactic(auto, using(crate::proofs::ActionLaws::skipnz_row))]
fn skipnz<'a>(words: &mut Words<'a>) -> Option<Line<'a>>
    ensures { option_map lines.line_of result ≡ spec.jump (codes "skipnz" ∷ words.old) }
{
    let (register, count) = two(words, Shape::Any, Shape::Number)?;
    Some(Line::Do(ActionWords::Skipnz { register, count }))
}

/// `return VALUE`, or `return` alone.
#[tactic(auto, using(crate::proofs::ActionLaws::return_rows))]
fn give_back<'a>(words: &mut Words<'a>) -> Option<Line<'a>>
    ensures { option_map lines.line_of result ≡ spec.jump (codes "return" ∷ words.old) }
{
    let Some(value) = words.next() else {
        return Some(Line::Do(ActionWords::End));
    };
    if is_ended(words) {
        Some(Line::Do(ActionWords::Return { value }))
    } else {
        None
    }
}

/// The action that begins with this word and goes on with these, where the next action may be passed over.
#[tactic(auto, using(crate::proofs::ShapeLaws::same_word, crate::proofs::ActionLaws::no_jump))]
fn jump<'a>(word: &[u8], words: &mut Words<'a>) -> Option<Line<'a>>
    ensures { option_map lines.line_of result ≡ spec.jump (word.now ∷ words.old) }
{
    if says(word, b"skipz") {
        skipz(words)
    } else if says(word, b"skipnz") {
        skipnz(words)
    } else if says(word, b"return") {
        give_back(words)
    } else {
        None
    }
}

/// The action that begins with this word, and goes on with these.
#[tactic(auto, using(crate::proofs::ActionLaws::one_of_four))]
fn action_line<'a>(word: &[u8], words: &mut Words<'a>) -> Option<Line<'a>>
    ensures { option_map lines.line_of result ≡ spec.action_line (word.now ∷ words.old) }
{
    if let Some(line) = calculation_line(word, &mut words.again()) {
        return Some(line);
    }
    if let Some(line) = block_line(word, &mut words.again()) {
        return Some(line);
    }
    if let Some(line) = cell_line(word, &mut words.again()) {
        return Some(line);
    }
    jump(word, words)
}

/// `temp NAME SIZE`
#[tactic(auto, using(crate::proofs::ActionLaws::temp_row))]
fn temp<'a>(words: &mut Words<'a>) -> Option<Line<'a>>
    ensures { option_map lines.line_of result ≡ spec.body_line (codes "temp" ∷ words.old) }
{
    let (name, size) = two(words, Shape::Name, Shape::Number)?;
    Some(Line::Temp { name, size })
}

/// `ocall RETURNED STATUS NAME(ARG, ..)`
#[tactic(auto, using(crate::proofs::ActionLaws::ocall_too_short))]
fn ocall<'a>(words: &mut Words<'a>) -> Option<Line<'a>>
    ensures { option_map lines.line_of result ≡ spec.body_line (codes "ocall" ∷ words.old) }
{
    let returned = word(words, Shape::Any)?;
    let status = word(words, Shape::Any)?;
    let name = word(words, Shape::Name)?;
    match last_arguments(words) {
        Some(args) => Some(Line::Ocall {
            returned,
            status,
            name,
            args,
        }),
        None => None,
    }
}

/// The line of a body that begins with this word, and goes on with these.
#[tactic(auto, using(crate::proofs::ShapeLaws::same_word, crate::proofs::ActionLaws::other_body_line))]
pub fn body_line<'a>(word: &[u8], words: &mut Words<'a>) -> Option<Line<'a>>
    ensures { option_map lines.line_of result ≡ spec.body_line (word.now ∷ words.old) }
{
    if says(word, b"temp") {
        temp(words)
    } else if says(word, b"ocall") {
        ocall(words)
    } else {
        action_line(word, words)
    }
}
