//! Keys that stand twice in an object of a JSON text.
ghost use Rattle.std.specs.Prelude.{◌≡◌, ◌∷◌, [], drop, option_map, is_none, IfOk, OnOk, IfSome, IsTrue};
ghost use Rattle.json.specs.Lex.{tokens};
ghost use Rattle.cdi_positions.specs.Position.{IsPositionIn};
ghost use Rattle.cdi_positions.specs.RepeatedKey as spec;
ghost use Rattle.cdi_positions.specs.RepeatedKey.{repeated_text};

use crate::key_set::KeySet;
use crate::position::{Position, position_after};
use cdi_base::Text;
use json::{Reader, Scratch, Token, is_valid};
use std::alloc::{AllocError, Global};
use std::fmt;
use std::marker::Model;

/// A key that stands in its object already. Of the values of such a key only the last counts.
#[derive(Drop)]
pub struct RepeatedKey {
    /// Where the key stands again.
    pub position: Position,
    pub key: Text,
}

impl fmt::Display for RepeatedKey {
    ghost output = { repeated_text };

    fn fmt<W: fmt::Write>(&self, f: &mut fmt::Formatter<W>) -> fmt::Result {
        let position = &self.position;
        let key = self.key.as_str();
        write!(
            f,
            "{position}: the key {key:?} stands twice in one object, and only its last value counts"
        )
    }
}

/// The objects of a text that are open. Contracts see the keys so far of each, those of the innermost first.
#[derive(Drop)]
struct Objects {
    objects: Vec<KeySet>,
}

impl Model for Objects {
    ghost use Rattle.std.specs.Prelude.{List, ℕ, reverse};

    ghost Value = { List (List (List ℕ)) };

    ghost view = { λ o. reverse o.objects.items };
}

impl Objects {
    fn new(alloc: Global) -> Objects
        ensures { result ≡ [] }
    {
        Objects {
            objects: Vec::new(alloc),
        }
    }

    fn begin(&mut self, alloc: Global) -> Result<(), AllocError>
        ensures { OnOk result (self.new ≡ [] ∷ self.old) }
    {
        self.objects.push(KeySet::new(alloc))?;
        Ok(())
    }

    fn end(&mut self)
        ensures { self.new ≡ drop 1 self.old }
    {
        let _innermost = self.objects.pop();
    }

    /// Adds a key to the innermost object, and answers whether it is new there.
    fn add(&mut self, key: &str) -> Result<bool, AllocError>
        ensures new { IfOk result (λ is_new. is_new ≡ is_none (spec.repeats self.old key.now)) }
        ensures added { IfOk result
            (λ is_new. IsTrue is_new → self.new ≡ spec.with_key self.old key.now) }
    {
        let Some(mut keys) = self.objects.pop() else {
            return Ok(true);
        };
        let is_new = keys.insert(key)?;
        self.objects.push(keys)?;
        Ok(is_new)
    }
}

/// The position of the byte of a text at an offset.
fn position_at(text: &str, offset: usize) -> Position
    ensures { IsPositionIn text.now result }
{
    let bytes = text.as_bytes();
    let (front, _) = bytes.split_at(offset.min(bytes.len()));
    position_after(front)
}

/// The first key of a text that stands in its object already.
fn search(alloc: Global, text: &str) -> Result<Option<RepeatedKey>, AllocError>
    ensures key { IfOk result
        (λ found. option_map (λ r. r.key) found ≡ spec.repeated_in [] (tokens text.now)) }
    ensures position { IfOk result
        (λ found. IfSome found (λ r. IsPositionIn text.now r.position)) }
{
    let mut scratch = Scratch::new(alloc);
    let mut reader = Reader::new(text, &mut scratch)?;
    let mut objects = Objects::new(alloc);
    let mut offset = reader.offset();
    while let Some(token) = reader.next() {
        match token {
            Token::BeginObject => objects.begin(alloc)?,
            Token::EndObject => objects.end(),
            Token::Key(key) => if !objects.add(key)? {
                return Ok(Some(RepeatedKey {
                    position: position_at(text, offset),
                    key: Text::from_str(alloc, key)?,
                }));
            },
            _ => {}
        }
        offset = reader.offset();
    }
    Ok(None)
}

/// The first key of bytes that stands in its object already, and where it stands there again. Keys are compared as they read
/// without escapes. There is none where the bytes are no JSON text (RFC 8259) in UTF-8 of at most 128 nested arrays and
/// objects. An error where a growth was refused.
pub fn repeated_key(alloc: Global, bytes: &[u8]) -> Result<Option<RepeatedKey>, AllocError>
    ensures key { IfOk result
        (λ found. option_map (λ r. r.key) found ≡ spec.repeated_key bytes.now) }
    ensures position { IfOk result
        (λ found. IfSome found (λ r. IsPositionIn bytes.now r.position)) }
{
    let Ok(text) = std::str::from_utf8(bytes) else {
        return Ok(None);
    };
    if !is_valid(text, &mut Scratch::new(alloc))? {
        return Ok(None);
    }
    search(alloc, text)
}
