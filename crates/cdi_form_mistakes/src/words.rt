//! A word that isn't known, with those that are.
ghost use Rattle.std.specs.Prelude.{◌≡◌, IfOk, map};
ghost use Rattle.cdi_base.specs.Near.{nearest};
ghost use Rattle.cdi_form_mistakes.specs.UnknownWord as spec;
ghost use Rattle.cdi_form_mistakes.specs.UnknownWord.{unknown_text};

use cdi_base::{Text, nearest};
use std::alloc::{AllocError, Global};
use std::fmt;

/// A word that is none of those that are known at its place.
#[derive(Drop)]
pub struct UnknownWord {
    pub written: Text,
    /// The known word that was probably meant, if one is near.
    pub near: Option<Text>,
    /// The known words, with commas between them.
    pub known: Text,
}

impl fmt::Display for UnknownWord {
    ghost output = { unknown_text };

    fn fmt<W: fmt::Write>(&self, f: &mut fmt::Formatter<W>) -> fmt::Result {
        let written = self.written.as_str();
        let known = self.known.as_str();
        match &self.near {
            Some(near) => {
                let near = near.as_str();
                write!(
                    f,
                    "{written:?} isn't known: is {near} meant? Known are {known}"
                )
            }
            None => write!(f, "{written:?} isn't known. Known are {known}"),
        }
    }
}

/// These words, with commas between them.
pub fn listed(alloc: Global, words: &[&str]) -> Result<Text, AllocError>
    ensures { IfOk result (λ text. text ≡ spec.listed (map (λ word. word.now) words.now)) }
{
    Ok(Text::new(words.join(alloc, ", ")?))
}

fn near_word(alloc: Global, written: &str, known: &[&str]) -> Result<Option<Text>, AllocError>
    ensures { IfOk result
        (λ near. near ≡ nearest written.now (map (λ word. word.now) known.now)) }
{
    match nearest(written, known) {
        Some(near) => Ok(Some(Text::from_str(alloc, near)?)),
        None => Ok(None),
    }
}

/// A word that is none of these. An error where a growth was refused.
pub fn unknown_word(alloc: Global, written: &str, known: &[&str]) -> Result<UnknownWord, AllocError>
    ensures { IfOk result
        (λ word. word ≡ spec.unknown_word written.now (map (λ word. word.now) known.now)) }
{
    Ok(UnknownWord {
        written: Text::from_str(alloc, written)?,
        near: near_word(alloc, written, known)?,
        known: listed(alloc, known)?,
    })
}
