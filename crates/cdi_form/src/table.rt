//! The form of a deployment as a table: the keys of each kind of object. A key more is a row more.
ghost use Rattle.std.specs.Prelude.{◌≡◌, map};
ghost use Rattle.cdi_form.specs.Table as spec;
ghost use Rattle.cdi_form.specs.Table.{row_of};

use crate::form::{Kind, Part};

/// A key of an object.
#[derive(Clone, Copy)]
pub struct Row {
    pub key: &'static str,
    /// What stands at the key.
    pub part: Part,
    /// Whether an object without the key is wrong.
    pub is_required: bool,
}

/// The row of a key that has to be there.
macro_rules! required {
    ($key:literal, $part:expr) => {
        Row {
            key: $key,
            part: $part,
            is_required: true,
        }
    };
}

/// The row of a key that may be missing.
macro_rules! optional {
    ($key:literal, $part:expr) => {
        Row {
            key: $key,
            part: $part,
            is_required: false,
        }
    };
}

const DEPLOYMENT: &[Row] = &[
    optional!("form", Part::FormNumber),
    optional!("interfaces", Part::Objects(Kind::Interface)),
    optional!("qualifiers", Part::Objects(Kind::AnnotationType)),
    optional!("bindings", Part::Objects(Kind::AnnotationType)),
    optional!("exceptions", Part::Objects(Kind::Exception)),
    optional!("classes", Part::Objects(Kind::Class)),
    optional!("interceptors", Part::Objects(Kind::Interceptor)),
    optional!("selected", Part::Names),
    optional!("order", Part::Names),
    optional!("scripts", Part::Objects(Kind::Script)),
];

const INTERFACE: &[Row] = &[
    required!("name", Part::Name),
    optional!("extends", Part::Names),
];

const ANNOTATION_TYPE: &[Row] = &[
    required!("name", Part::Name),
    optional!("members", Part::Names),
    optional!("nonbinding", Part::Names),
];

const EXCEPTION: &[Row] = &[
    required!("name", Part::Name),
    optional!("checked", Part::Mark),
];

const CLASS: &[Row] = &[
    required!("name", Part::Name),
    optional!("extends", Part::Name),
    optional!("implements", Part::Names),
    optional!("abstract", Part::Mark),
    optional!("final", Part::Mark),
    optional!("bindings", Part::Uses),
    optional!("bean", Part::Object(Kind::Bean)),
    optional!("fields", Part::Objects(Kind::Field)),
    optional!("inject", Part::Objects(Kind::InjectedField)),
    optional!("constructor", Part::Object(Kind::Constructor)),
    optional!("members", Part::Members),
];

const BEAN: &[Row] = &[
    optional!("scope", Part::Scope),
    optional!("quals", Part::Uses),
    optional!("typed", Part::Names),
    optional!("alternative", Part::Mark),
    optional!("priority", Part::WholeNumber),
    optional!("specializes", Part::Mark),
];

const FIELD: &[Row] = &[
    required!("name", Part::Name),
    optional!("value", Part::Value),
];

const INJECTED_FIELD: &[Row] = &[
    required!("name", Part::Name),
    required!("type", Part::Name),
    optional!("quals", Part::Uses),
];

const CONSTRUCTOR: &[Row] = &[
    optional!("params", Part::Objects(Kind::Point)),
    optional!("body", Part::Name),
];

const POINT: &[Row] = &[
    required!("type", Part::Name),
    optional!("quals", Part::Uses),
];

const INTERCEPTOR: &[Row] = &[
    required!("name", Part::Name),
    required!("bindings", Part::SomeUses),
    optional!("priority", Part::WholeNumber),
    optional!("fields", Part::Objects(Kind::Field)),
    optional!("inject", Part::Objects(Kind::InjectedField)),
    optional!("invoke", Part::Name),
    optional!("construct", Part::Name),
    optional!("post", Part::Name),
    optional!("pre", Part::Name),
];

const SCRIPT: &[Row] = &[
    required!("name", Part::Name),
    required!("steps", Part::Steps),
];

const METHOD: &[Row] = &[
    required!("kind", Part::MemberKind),
    required!("name", Part::Name),
    required!("body", Part::Name),
    optional!("args", Part::ArgumentCount),
    optional!("bindings", Part::Uses),
];

const INITIALIZER: &[Row] = &[
    required!("kind", Part::MemberKind),
    required!("name", Part::Name),
    required!("body", Part::Name),
    optional!("params", Part::Objects(Kind::Point)),
];

const CALLBACK: &[Row] = &[
    required!("kind", Part::MemberKind),
    required!("name", Part::Name),
    required!("body", Part::Name),
];

const PRODUCER: &[Row] = &[
    required!("kind", Part::MemberKind),
    required!("name", Part::Name),
    required!("body", Part::Name),
    required!("type", Part::Name),
    optional!("quals", Part::Uses),
    optional!("typed", Part::Names),
    optional!("scope", Part::Scope),
    optional!("params", Part::Objects(Kind::Point)),
    optional!("bindings", Part::Uses),
];

const PRODUCER_FIELD: &[Row] = &[
    required!("kind", Part::MemberKind),
    required!("name", Part::Name),
    required!("field", Part::Name),
    required!("type", Part::Name),
    optional!("quals", Part::Uses),
    optional!("typed", Part::Names),
    optional!("scope", Part::Scope),
];

const DISPOSER: &[Row] = &[
    required!("kind", Part::MemberKind),
    required!("name", Part::Name),
    required!("body", Part::Name),
    required!("type", Part::Name),
    optional!("quals", Part::Uses),
    optional!("params", Part::Objects(Kind::Point)),
    optional!("bindings", Part::Uses),
];

const OBSERVER: &[Row] = &[
    required!("kind", Part::MemberKind),
    required!("name", Part::Name),
    required!("body", Part::Name),
    required!("type", Part::Name),
    optional!("quals", Part::Uses),
    optional!("params", Part::Objects(Kind::Point)),
    optional!("priority", Part::WholeNumber),
    optional!("if_exists", Part::Mark),
    optional!("bindings", Part::Uses),
];

/// The keys of an object of a kind.
pub fn rows(kind: Kind) -> &'static [Row]
    ensures { map row_of result.now ≡ spec.rows kind }
{
    match kind {
        Kind::Deployment => DEPLOYMENT,
        Kind::Interface => INTERFACE,
        Kind::AnnotationType => ANNOTATION_TYPE,
        Kind::Exception => EXCEPTION,
        Kind::Class => CLASS,
        Kind::Bean => BEAN,
        Kind::Field => FIELD,
        Kind::InjectedField => INJECTED_FIELD,
        Kind::Constructor => CONSTRUCTOR,
        Kind::Point => POINT,
        Kind::Interceptor => INTERCEPTOR,
        Kind::Script => SCRIPT,
        Kind::Method => METHOD,
        Kind::Initializer => INITIALIZER,
        Kind::PostConstruct => CALLBACK,
        Kind::PreDestroy => CALLBACK,
        Kind::Producer => PRODUCER,
        Kind::ProducerField => PRODUCER_FIELD,
        Kind::Disposer => DISPOSER,
        Kind::Observer => OBSERVER,
    }
}
