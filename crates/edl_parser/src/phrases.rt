//! Types as they are written.

ghost use Rattle.std.specs.Prelude.{◌≡◌, [], ◌∷◌, ◌++◌, IfOk};
ghost use Rattle.edl_grammar.specs.Grammar as grammar;
ghost use Rattle.edl_grammar.specs.Parser as parser;
ghost use Rattle.edl_parser.specs.Reads.{Reads, said_meaning};

use crate::cursor::{Cursor, Stop};
use edl_grammar::{Base, Phrase, Tag, Written};
use sgx_base::Name;
use sqlite_items::Items;
use std::alloc::{AllocError, Global};

/// The first phrase, and the other behind it.
fn joined(first: Phrase, other: Option<Phrase>) -> Result<Phrase, AllocError>
    ensures { IfOk result (λ phrase. phrase ≡ grammar.joined first other) }
{
    match other {
        Some(other) => {
            let Phrase {
                token: _,
                mut words,
            } = first;
            words.append(other.words)?;
            Ok(Phrase {
                token: other.token,
                words,
            })
        }
        None => Ok(first),
    }
}

/// The word alone.
fn one_word(alloc: Global, word: &[u8]) -> Result<Items<Name>, AllocError>
    ensures { IfOk result (λ words. words ≡ word.now ∷ []) }
{
    let mut words = Items::new(alloc);
    words.push(Name::new(alloc, word)?)?;
    Ok(words)
}

/// A word, and the other behind it.
fn two_words(alloc: Global, first: &[u8], second: &[u8]) -> Result<Items<Name>, AllocError>
    ensures { IfOk result (λ words. words ≡ first.now ∷ second.now ∷ []) }
{
    let mut words = one_word(alloc, first)?;
    words.push(Name::new(alloc, second)?)?;
    Ok(words)
}

/// Adds the words of a phrase, where there is one.
fn add_words(words: &mut Items<Name>, phrase: Option<Phrase>) -> Result<(), AllocError>
    ensures { IfOk result (λ _. words.new ≡ words.old ++ grammar.words_of phrase) }
{
    if let Some(phrase) = phrase {
        words.append(phrase.words)?;
    }
    Ok(())
}

/// The words of the base, between those before and behind it.
fn words_between(
    alloc: Global,
    before: Option<Phrase>,
    words_of_base: Items<Name>,
    after: Option<Phrase>,
) -> Result<Items<Name>, AllocError>
    ensures { IfOk result (λ words. words ≡ grammar.words_of before ++ words_of_base ++ grammar.words_of after) }
{
    let mut words = Items::new(alloc);
    add_words(&mut words, before)?;
    words.append(words_of_base)?;
    add_words(&mut words, after)?;
    Ok(words)
}

/// A type with the words `const` around its base.
fn written_by(
    alloc: Global,
    before: Option<Phrase>,
    base: Base,
    phrase: Phrase,
    after: Option<Phrase>,
    stars: u32,
) -> Result<Written, AllocError>
    ensures { IfOk result (λ written. written ≡ parser.written_by before (base, phrase) after stars) }
{
    let is_const = before.is_some() || after.is_some();
    let words = words_between(alloc, before, phrase.words, after)?;
    Ok(Written {
        token: phrase.token,
        words,
        base,
        is_const,
        stars,
    })
}

impl Cursor<'_> {
    /// Takes the word.
    fn said(&mut self, alloc: Global, word: &[u8]) -> Result<Phrase, Stop>
        ensures { Reads (parser.said_as word.now self.old) result self.new }
    {
        let token = self.take_word(word)?;
        let words = one_word(alloc, word)?;
        Ok(Phrase { token, words })
    }

    /// Takes the word, which means this value.
    fn meaning<T: Drop>(
        &mut self,
        alloc: Global,
        word: &[u8],
        value: T,
    ) -> Result<(T, Phrase), Stop>
        ensures { Reads (said_meaning word.now value self.old) result self.new }
    {
        let phrase = self.said(alloc, word)?;
        Ok((value, phrase))
    }

    /// Takes the word, if it comes next.
    fn maybe_said(&mut self, alloc: Global, word: &[u8]) -> Result<Option<Phrase>, Stop>
        ensures { Reads (parser.optional (parser.is_spelled word.now) (parser.said_as word.now) self.old)
            result self.new }
    {
        if self.sees_word(word) {
            let phrase = self.said(alloc, word)?;
            Ok(Some(phrase))
        } else {
            Ok(None)
        }
    }

    /// Takes the word, if it comes next, behind the phrase.
    fn then_maybe(&mut self, alloc: Global, first: Phrase, word: &[u8]) -> Result<Phrase, Stop>
        ensures { Reads (parser.then_maybe_as first word.now self.old) result self.new }
    {
        let other = self.maybe_said(alloc, word)?;
        let phrase = joined(first, other)?;
        Ok(phrase)
    }

    fn short_int(&mut self, alloc: Global) -> Result<(u32, Phrase), Stop>
        ensures { Reads (parser.short_int self.old) result self.new }
    {
        let first = self.said(alloc, b"short")?;
        let phrase = self.then_maybe(alloc, first, b"int")?;
        Ok((2, phrase))
    }

    fn long_int(&mut self, alloc: Global) -> Result<(u32, Phrase), Stop>
        ensures { Reads (parser.long_int self.old) result self.new }
    {
        let first = self.said(alloc, b"long")?;
        let longer = self.then_maybe(alloc, first, b"long")?;
        let phrase = self.then_maybe(alloc, longer, b"int")?;
        Ok((8, phrase))
    }

    /// An integer type without its sign, and its size.
    #[tactic(auto, unfolding(edl_grammar::specs::Parser::int))]
    fn int(&mut self, alloc: Global) -> Result<(u32, Phrase), Stop>
        ensures { Reads (parser.int self.old) result self.new }
    {
        if self.sees_word(b"char") {
            self.meaning(alloc, b"char", 1)
        } else if self.sees_word(b"short") {
            self.short_int(alloc)
        } else if self.sees_word(b"int") {
            self.meaning(alloc, b"int", 4)
        } else {
            self.long_int(alloc)
        }
    }

    #[tactic(auto, using(crate::proofs::Sees::sees_int))]
    fn sees_int(&self) -> bool
        ensures { result ≡ parser.sees parser.is_int_word self.now }
    {
        self.sees_word(b"char")
            || self.sees_word(b"short")
            || self.sees_word(b"int")
            || self.sees_word(b"long")
    }

    #[tactic(auto, using(crate::proofs::Sees::sees_sign))]
    fn sees_sign(&self) -> bool
        ensures { result ≡ parser.sees parser.is_sign self.now }
    {
        self.sees_word(b"signed") || self.sees_word(b"unsigned")
    }

    /// `void`, `float` or `double`.
    #[tactic(auto, using(crate::proofs::Sees::sees_plain))]
    fn sees_plain(&self) -> bool
        ensures { result ≡ parser.sees parser.is_plain self.now }
    {
        self.sees_word(b"void") || self.sees_word(b"float") || self.sees_word(b"double")
    }

    /// A tag or a name.
    #[tactic(auto, using(crate::proofs::Sees::sees_named))]
    fn sees_named(&self) -> bool
        ensures { result ≡ parser.sees parser.is_named self.now }
    {
        self.sees_word(b"struct")
            || self.sees_word(b"enum")
            || self.sees_word(b"union")
            || self.sees_name()
    }

    /// Whether a type begins here.
    #[tactic(auto, using(crate::proofs::Sees::sees_type))]
    pub fn sees_type(&self) -> bool
        ensures { result ≡ parser.sees parser.begins_type self.now }
    {
        self.sees_word(b"const")
            || self.sees_plain()
            || self.sees_int()
            || self.sees_sign()
            || self.sees_named()
    }

    fn sign(&mut self, alloc: Global) -> Result<(bool, Phrase), Stop>
        ensures { Reads (parser.sign self.old) result self.new }
    {
        if self.sees_word(b"signed") {
            self.meaning(alloc, b"signed", true)
        } else {
            self.meaning(alloc, b"unsigned", false)
        }
    }

    fn maybe_int(&mut self, alloc: Global) -> Result<Option<(u32, Phrase)>, Stop>
        ensures { Reads (parser.optional parser.is_int_word parser.int self.old) result self.new }
    {
        if self.sees_int() {
            let int = self.int(alloc)?;
            Ok(Some(int))
        } else {
            Ok(None)
        }
    }

    fn plain_int(&mut self, alloc: Global) -> Result<(Base, Phrase), Stop>
        ensures { Reads (parser.plain_int self.old) result self.new }
    {
        let (size, phrase) = self.int(alloc)?;
        Ok((Base::Integer { size, signed: true }, phrase))
    }

    /// A sign alone means `int`.
    fn signed_int(&mut self, alloc: Global) -> Result<(Base, Phrase), Stop>
        ensures { Reads (parser.signed_int self.old) result self.new }
    {
        let (signed, first) = self.sign(alloc)?;
        match self.maybe_int(alloc)? {
            Some((size, other)) => {
                let phrase = joined(first, Some(other))?;
                Ok((Base::Integer { size, signed }, phrase))
            }
            None => Ok((Base::Integer { size: 4, signed }, first)),
        }
    }

    fn bare(&mut self, alloc: Global) -> Result<(Base, Phrase), Stop>
        ensures { Reads (parser.bare self.old) result self.new }
    {
        let found = self.take_name(alloc)?;
        let words = one_word(alloc, found.name.bytes())?;
        let phrase = Phrase {
            token: found.token,
            words,
        };
        Ok((Base::Bare(found.name), phrase))
    }

    fn tagged(&mut self, alloc: Global, word: &[u8], tag: Tag) -> Result<(Base, Phrase), Stop>
        ensures { Reads (parser.tagged_as word.now tag self.old) result self.new }
    {
        self.take_word(word)?;
        let found = self.take_name(alloc)?;
        let words = two_words(alloc, word, found.name.bytes())?;
        let phrase = Phrase {
            token: found.token,
            words,
        };
        let base = Base::Tagged {
            tag,
            name: found.name,
        };
        Ok((base, phrase))
    }

    /// A type with a tag, or a bare name.
    fn named_base(&mut self, alloc: Global) -> Result<(Base, Phrase), Stop>
        ensures { Reads (parser.named_base self.old) result self.new }
    {
        if self.sees_word(b"struct") {
            self.tagged(alloc, b"struct", Tag::Struct)
        } else if self.sees_word(b"enum") {
            self.tagged(alloc, b"enum", Tag::Enum)
        } else if self.sees_word(b"union") {
            self.tagged(alloc, b"union", Tag::Union)
        } else {
            self.bare(alloc)
        }
    }

    fn other_base(&mut self, alloc: Global) -> Result<(Base, Phrase), Stop>
        ensures { Reads (parser.other_base self.old) result self.new }
    {
        if self.sees_int() {
            self.plain_int(alloc)
        } else if self.sees_sign() {
            self.signed_int(alloc)
        } else {
            self.named_base(alloc)
        }
    }

    #[tactic(auto, unfolding(edl_grammar::specs::Parser::base_type))]
    fn base_type(&mut self, alloc: Global) -> Result<(Base, Phrase), Stop>
        ensures { Reads (parser.base_type self.old) result self.new }
    {
        if self.sees_word(b"void") {
            self.meaning(alloc, b"void", Base::Void)
        } else if self.sees_word(b"float") {
            self.meaning(alloc, b"float", Base::Float)
        } else if self.sees_word(b"double") {
            self.meaning(alloc, b"double", Base::Double)
        } else {
            self.other_base(alloc)
        }
    }

    /// Takes the stars that come next, and counts them.
    fn stars(&mut self) -> Result<u32, Stop>
        ensures { Reads (parser.stars self.old) result self.new }
    {
        let before = self.len();
        while self.sees_mark(b'*') {
            self.take_mark(b'*')?;
        }
        Ok((before - self.len()) as u32)
    }

    #[tactic(auto, unfolding(edl_grammar::specs::Parser::written))]
    pub fn written(&mut self, alloc: Global) -> Result<Written, Stop>
        ensures { Reads (parser.written self.old) result self.new }
    {
        let before = self.maybe_said(alloc, b"const")?;
        let (base, phrase) = self.base_type(alloc)?;
        let after = self.maybe_said(alloc, b"const")?;
        let stars = self.stars()?;
        let written = written_by(alloc, before, base, phrase, after, stars)?;
        Ok(written)
    }
}
