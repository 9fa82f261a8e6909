//! The kinds of members.
ghost use Rattle.std.specs.Prelude.{◌≡◌, position};
ghost use Rattle.cdi_types.specs.Kinds as spec;

use cdi_deployment::{Class, Member};

/// What a member of a class is.
#[derive(Clone, Copy, Debug, PartialEq, Eq)]
pub enum MemberKind {
    /// A business method (Jakarta CDI 4.0, *Container invocations and interception*).
    Method,
    /// An initializer method (Jakarta CDI 4.0, *Initializer methods*).
    Initializer,
    /// A post-construct callback (Jakarta Interceptors 2.1, *Interceptor Methods for Lifecycle Event Callbacks*).
    PostConstruct,
    /// A pre-destroy callback.
    PreDestroy,
    /// A producer method (Jakarta CDI 4.0, *Producer methods*).
    Producer,
    /// A producer field (Jakarta CDI 4.0, *Producer fields*).
    ProducerField,
    /// A disposer method (Jakarta CDI 4.0, *Disposer methods*).
    Disposer,
    /// An observer method (Jakarta CDI 4.0, *Observer methods*).
    Observer,
}

impl MemberKind {
    /// The kind of a member.
    pub fn of(member: &Member) -> MemberKind
        ensures { result ≡ spec.kind_of member.now }
    {
        match member {
            Member::Method(_) => MemberKind::Method,
            Member::Initializer(_) => MemberKind::Initializer,
            Member::PostConstruct(_) => MemberKind::PostConstruct,
            Member::PreDestroy(_) => MemberKind::PreDestroy,
            Member::Producer(_) => MemberKind::Producer,
            Member::ProducerField(_) => MemberKind::ProducerField,
            Member::Disposer(_) => MemberKind::Disposer,
            Member::Observer(_) => MemberKind::Observer,
        }
    }

    /// Whether a member is of this kind.
    pub fn is_of(self, member: &Member) -> bool
        ensures { result ≡ spec.has_kind self member.now }
    {
        MemberKind::of(member) == self
    }

    /// Whether a class declares a member of this kind.
    pub(crate) fn is_declared_by(self, class: &Class) -> bool
        ensures { result ≡ spec.declares_kind self class.now }
    {
        class.members.iter().any(|member| self.is_of(member))
    }

    /// The place of the first class of a line that declares a member of this kind, if one does.
    pub(crate) fn first_in(self, line: &[&Class]) -> Option<usize>
        ensures { result ≡ position (λ c. spec.declares_kind self c.now) line.now }
    {
        line.iter().position(|class| self.is_declared_by(class))
    }
}
