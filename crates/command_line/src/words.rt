// Words one by one. What is read of a whole line stands above.
ghost use Rattle.std.specs.Prelude.{◌≡◌, ◌↔◌, IfOk, IsTrue, IsUtf8, All, map};
ghost use Rattle.command_line.specs.Words.{IsFirst, IsGiven};

use clean_base::{Seq, Word};
use std::alloc::{AllocError, Global};

// Whether it may be a value, or the name of a file.
pub(crate) fn is_given(text: &str) -> bool
    ensures { IsTrue result ↔ IsGiven text.now }
{
    !text.is_empty() && text != "-"
}

pub(crate) fn are_given(texts: &[&str]) -> bool
    ensures { IsTrue result ↔ All IsGiven (map (λ s. s.now) texts.now) }
{
    for text in texts {
        if !is_given(*text) {
            return false;
        }
    }
    true
}

pub(crate) fn is_first(words: &[Word], name: &str) -> bool
    ensures { IsTrue result ↔ IsFirst name.now words.now }
{
    match words {
        [] => false,
        [first, ..] => first.as_str() == name,
    }
}

// Goes over the words, each of which is text: of other words clap's contracts would tell less.
pub(crate) fn see_text(words: &[Word])
    ensures { All IsUtf8 words.now }
{
    for word in words {
        let _text = word.as_str();
    }
}

pub(crate) fn copy_of(alloc: Global, text: &str) -> Result<Word, AllocError>
    ensures { IfOk result (λ word. word ≡ text.now) }
{
    Ok(Word::new(String::from_str(alloc, text)?))
}

pub(crate) fn copies_of(alloc: Global, texts: &[&str]) -> Result<Seq<Word>, AllocError>
    ensures { IfOk result (λ words. words ≡ map (λ s. s.now) texts.now) }
{
    let mut words = Vec::new(alloc);
    for text in texts {
        words.push(copy_of(alloc, *text)?)?;
    }
    Ok(Seq::from_vec(words))
}
