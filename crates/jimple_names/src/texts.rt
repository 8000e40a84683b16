// The names and types that tokens write. Raw trees stand below; the pass over names above.
ghost use Rattle.std.specs.Prelude.{◌≡◌, ◌==◌, ◌++◌, codes, map, IfOk};
ghost use Rattle.std.specs.List.{list_any};
ghost use Rattle.jimple_lex.specs.Bytes.{single_quote};
ghost use Rattle.jimple_names.specs.Texts.{text, unquoted, name_of, type_of, sig_of, field_sig_of};

use clean_base::{Name, Seq};
use jimple_grammar::lexeme::Lexeme;
use jimple_grammar::raw::{RawFieldSig, RawSig, RawType};
use jimple_tree::{FieldSig, JType, Sig};
use std::alloc::{AllocError, Global};

/// What stands before the string of a class constant.
const CLASS: &[u8] = b"class ";

/// The bytes of a token. A place past the end counts as the end.
pub fn text<'a>(bytes: &'a [u8], token: Lexeme) -> &'a [u8]
    ensures { result.now ≡ text bytes.now token }
{
    let to = (token.to as usize).min(bytes.len());
    let from = (token.from as usize).min(to);
    &bytes[from..to]
}

/// A segment of the word stands in quotes.
pub fn is_quoted(word: &[u8]) -> bool
    ensures { result ≡ list_any (λ c. c == single_quote) word.now }
{
    word.iter().any(|c| *c == b'\'')
}

/// The bytes once more, as a name of their own.
fn copy(alloc: Global, bytes: &[u8]) -> Result<Name, AllocError>
    ensures { IfOk result (λ n. n ≡ bytes.now) }
{
    Ok(Name::from_vec(Vec::from_slice(alloc, bytes)?))
}

/// The name of a word.
pub fn unquoted(alloc: Global, word: &[u8]) -> Result<Name, AllocError>
    ensures { IfOk result (λ n. n ≡ unquoted word.now) }
{
    if !is_quoted(word) {
        return copy(alloc, word);
    }
    let mut name = Vec::new(alloc);
    for c in word {
        if *c != b'\'' {
            name.push(*c)?;
        }
    }
    Ok(Name::from_vec(name))
}

pub fn name(alloc: Global, bytes: &[u8], token: Lexeme) -> Result<Name, AllocError>
    ensures { IfOk result (λ n. n ≡ name_of bytes.now token) }
{
    unquoted(alloc, text(bytes, token))
}

pub fn names(alloc: Global, bytes: &[u8], tokens: &[Lexeme]) -> Result<Seq<Name>, AllocError>
    ensures { IfOk result (λ ns. ns ≡ map (name_of bytes.now) tokens.now) }
{
    let mut names = Vec::with_capacity(alloc, tokens.len())?;
    for token in tokens {
        names.push(name(alloc, bytes, *token)?)?;
    }
    Ok(Seq::from_vec(names))
}

/// A literal: the bytes of the token.
pub fn literal(alloc: Global, bytes: &[u8], token: Lexeme) -> Result<Name, AllocError>
    ensures { IfOk result (λ n. n ≡ text bytes.now token) }
{
    copy(alloc, text(bytes, token))
}

pub fn type_of(alloc: Global, bytes: &[u8], ty: RawType) -> Result<JType, AllocError>
    ensures { IfOk result (λ t. t ≡ type_of bytes.now ty) }
{
    let base = name(alloc, bytes, ty.base)?;
    Ok(JType {
        base,
        dims: ty.dims,
    })
}

pub fn types_of(alloc: Global, bytes: &[u8], types: &[RawType]) -> Result<Seq<JType>, AllocError>
    ensures { IfOk result (λ ts. ts ≡ map (type_of bytes.now) types.now) }
{
    let mut found = Vec::with_capacity(alloc, types.len())?;
    for ty in types {
        found.push(type_of(alloc, bytes, *ty)?)?;
    }
    Ok(Seq::from_vec(found))
}

pub fn sig_of(alloc: Global, bytes: &[u8], raw: &RawSig) -> Result<Sig, AllocError>
    ensures { IfOk result (λ s. s ≡ sig_of bytes.now raw.now) }
{
    let class = name(alloc, bytes, raw.class)?;
    let result = type_of(alloc, bytes, raw.result)?;
    let name = name(alloc, bytes, raw.name)?;
    let params = types_of(alloc, bytes, raw.params.as_slice())?;
    Ok(Sig {
        class,
        result,
        name,
        params,
    })
}

pub fn field_sig_of(alloc: Global, bytes: &[u8], raw: RawFieldSig) -> Result<FieldSig, AllocError>
    ensures { IfOk result (λ s. s ≡ field_sig_of bytes.now raw) }
{
    let class = name(alloc, bytes, raw.class)?;
    let ty = type_of(alloc, bytes, raw.ty)?;
    let name = name(alloc, bytes, raw.name)?;
    Ok(FieldSig { class, ty, name })
}

/// A class constant: the word `class`, one space and the string.
pub fn class_literal(alloc: Global, bytes: &[u8], token: Lexeme) -> Result<Name, AllocError>
    ensures { IfOk result (λ n. n ≡ codes "class " ++ text bytes.now token) }
{
    let string = text(bytes, token);
    let mut literal = Vec::with_capacity(alloc, CLASS.len() + string.len())?;
    literal.extend_from_slice(CLASS)?;
    literal.extend_from_slice(string)?;
    Ok(Name::from_vec(literal))
}
