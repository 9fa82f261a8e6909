//! The texts of scopes and of the kinds of members.
ghost use Rattle.std.specs.Prelude.{◌≡◌, bytes_eq, find, map, option_map};
ghost use Rattle.std.specs.Option.{option_copied};
ghost use Rattle.cdi_form.specs.Words as spec;
ghost use Rattle.cdi_form.specs.Words.{word_of};

use crate::form::Kind;
use cdi_base::Scope;

/// A text that stands for something.
#[derive(Clone, Copy)]
pub struct Word<T> {
    pub text: &'static str,
    pub meaning: T,
}

macro_rules! word {
    ($text:literal, $meaning:expr) => {
        Word {
            text: $text,
            meaning: $meaning,
        }
    };
}

const SCOPES: &[Word<Scope>] = &[
    word!("ApplicationScoped", Scope::ApplicationScoped),
    word!("SessionScoped", Scope::SessionScoped),
    word!("RequestScoped", Scope::RequestScoped),
    word!("Dependent", Scope::Dependent),
];

const MEMBER_KINDS: &[Word<Kind>] = &[
    word!("method", Kind::Method),
    word!("init", Kind::Initializer),
    word!("post", Kind::PostConstruct),
    word!("pre", Kind::PreDestroy),
    word!("producer", Kind::Producer),
    word!("field", Kind::ProducerField),
    word!("disposer", Kind::Disposer),
    word!("observer", Kind::Observer),
];

/// The texts of scopes (Jakarta CDI 4.0, *Built-in scope types*).
pub fn scopes() -> &'static [Word<Scope>]
    ensures { map word_of result.now ≡ spec.scope_words }
{
    SCOPES
}

/// The texts that name the kinds of members.
pub fn member_kinds() -> &'static [Word<Kind>]
    ensures { map word_of result.now ≡ spec.member_words }
{
    MEMBER_KINDS
}

/// The word with this text.
fn word_in<'w, T: Copy>(words: &'w [Word<T>], text: &str) -> Option<&'w Word<T>>
    ensures { option_copied result ≡ find (λ word. bytes_eq word.text.now text.now) words.now }
{
    words.iter().find(|word| word.text == text)
}

/// What a text among some words stands for.
fn meaning_in<T: Copy>(words: &[Word<T>], text: &str) -> Option<T>
    ensures { result ≡ option_map (λ word. word.meaning)
        (option_map word_of (find (λ word. bytes_eq word.text.now text.now) words.now)) }
{
    match word_in(words, text).copied() {
        Some(word) => Some(word.meaning),
        None => None,
    }
}

/// The scope of a text (Jakarta CDI 4.0, *Built-in scope types*), or `None` where it is no scope.
pub fn scope_named(text: &str) -> Option<Scope>
    ensures { result ≡ spec.scope_named text.now }
{
    meaning_in(scopes(), text)
}

/// The kind of member that a text names, or `None` where it names none.
pub fn member_kind(text: &str) -> Option<Kind>
    ensures { result ≡ spec.member_kind text.now }
{
    meaning_in(member_kinds(), text)
}
