//! The kinds of objects in a deployment, and what may stand at a place of one.
ghost use Rattle.std.specs.Prelude.{◌≡◌, bytes_eq, find, option_map};
ghost use Rattle.std.specs.Option.{option_copied};
ghost use Rattle.cdi_form.specs.Form as spec;
ghost use Rattle.cdi_form.specs.Table.{row_of, rows};

use crate::table::{Row, rows};

/// The kinds of objects. A member of a class is of the kind that its key `kind` names.
#[derive(Clone, Copy, Debug, PartialEq, Eq)]
pub enum Kind {
    Deployment,
    Interface,
    /// A qualifier type or an interceptor binding type.
    AnnotationType,
    Exception,
    Class,
    Bean,
    Field,
    InjectedField,
    Constructor,
    /// An injection point that is a parameter.
    Point,
    Interceptor,
    Script,
    Method,
    Initializer,
    PostConstruct,
    PreDestroy,
    Producer,
    ProducerField,
    Disposer,
    Observer,
}

/// What stands at a place: the values that may stand there are its form.
#[derive(Clone, Copy, Debug, PartialEq, Eq)]
pub enum Part {
    /// The number of the form, 1.
    FormNumber,
    /// A text, which is to be a name.
    Name,
    /// An array of names.
    Names,
    /// Null, a number or a text.
    Value,
    /// A number of arguments, 0 to 8.
    ArgumentCount,
    /// True or false.
    Mark,
    /// A whole number of 64 bits with its sign.
    WholeNumber,
    /// The text of a scope.
    Scope,
    /// A text that names the kind of a member.
    MemberKind,
    /// A use of a qualifier or an interceptor binding: a text, or an array of a text and an object of values.
    Use,
    /// An array of uses.
    Uses,
    /// An array of at least one use.
    SomeUses,
    /// An array of anything.
    Steps,
    /// An object of this kind.
    Object(Kind),
    /// An array of objects of this kind.
    Objects(Kind),
    /// An object of the kind that its key `kind` names.
    Member,
    /// An array of members.
    Members,
}

/// The row of a key.
fn row_in<'r>(rows: &'r [Row], key: &str) -> Option<&'r Row>
    ensures { option_copied result ≡ find (λ row. bytes_eq row.key.now key.now) rows.now }
{
    rows.iter().find(|row| row.key == key)
}

/// The row of a key in an object of a kind.
fn row_at(kind: Kind, key: &str) -> Option<Row>
    ensures { option_map row_of result ≡ spec.row_in (rows kind) key.now }
{
    row_in(rows(kind), key).copied()
}

/// What stands at a key of an object, or `None` where the key is not listed.
pub fn part_at(kind: Kind, key: &str) -> Option<Part>
    ensures { result ≡ spec.part_at kind key.now }
{
    match row_at(kind, key) {
        Some(row) => Some(row.part),
        None => None,
    }
}

/// What each item of an array at a part is, if that is looked at.
pub fn item_part(part: Part) -> Option<Part>
    ensures { result ≡ spec.item_part part }
{
    match part {
        Part::Names => Some(Part::Name),
        Part::Uses | Part::SomeUses => Some(Part::Use),
        Part::Objects(kind) => Some(Part::Object(kind)),
        Part::Members => Some(Part::Member),
        _ => None,
    }
}

/// What each item of an array at a part is, where it is asked which texts stand in the place of a name: in a use that is
/// an array, each text does, and each key of its object.
pub fn named_part(part: Part) -> Option<Part>
    ensures { result ≡ spec.named_part part }
{
    match part {
        Part::Use => Some(Part::Use),
        _ => item_part(part),
    }
}
