//! What a class has for the lives of its instances.
ghost use Rattle.std.specs.Prelude.{◌≡◌, IfOk};
ghost use Rattle.std.specs.Option.{option_copied};
ghost use Rattle.cdi_class_lives.specs.Lives as spec;

use crate::codes::left_codes;
use crate::steps::left_places;
use cdi_base::{Name, Seq};
use cdi_machine::{Code, Step};
use std::alloc::{AllocError, Global};

/// What a class has for the lives of its instances.
pub struct ClassLife {
    /// The names of the classes of its line, the topmost first.
    pub(crate) line: Seq<Name>,
    /// The places of its fields.
    pub(crate) fields: Seq<u32>,
    /// The places of the steps of its injected fields and initializers.
    pub(crate) injections: Seq<u32>,
    /// Its post-construct callbacks.
    pub(crate) post_constructs: Seq<Code>,
    /// Its pre-destroy callbacks.
    pub(crate) pre_destroys: Seq<Code>,
    /// The map of its business methods, by its number; none if it has none.
    pub(crate) methods: Option<usize>,
}

/// In one call, so that the proof of each function that owns one has one step here, and not one for each of its parts.
impl Drop for ClassLife {
    fn drop(self) {
        let ClassLife {
            line: _line,
            fields: _fields,
            injections: _injections,
            post_constructs: _post_constructs,
            pre_destroys: _pre_destroys,
            methods: _methods,
        } = self;
    }
}

/// The line of a class more.
fn line_below(alloc: Global, line: &[Name], class: Name) -> Result<Seq<Name>, AllocError>
    ensures { IfOk result (λ longer. longer ≡ spec.longer line.now class) }
{
    let mut longer = Seq::new(Vec::from_slice(alloc, line)?);
    longer.push(class)?;
    Ok(longer)
}

impl ClassLife {
    /// What a class of no superclass has of it: nothing but its line.
    fn topmost(alloc: Global, class: Name) -> Result<ClassLife, AllocError>
        ensures { IfOk result (λ life. life ≡ spec.topmost class) }
    {
        Ok(ClassLife {
            line: line_below(alloc, &[], class)?,
            fields: Seq::empty(alloc),
            injections: Seq::empty(alloc),
            post_constructs: Seq::empty(alloc),
            pre_destroys: Seq::empty(alloc),
            methods: None,
        })
    }

    /// What a class that declares members of these names has of its direct superclass.
    fn below(
        &self,
        alloc: Global,
        kept: &[Step],
        class: Name,
        declared: &[Name],
    ) -> Result<ClassLife, AllocError>
        ensures { IfOk result (λ life. life ≡ spec.below self.now kept.now class declared.now) }
    {
        Ok(ClassLife {
            line: line_below(alloc, self.line.as_slice(), class)?,
            fields: Seq::new(Vec::from_slice(alloc, self.fields.as_slice())?),
            injections: left_places(alloc, kept, self.injections.as_slice(), declared)?,
            post_constructs: left_codes(alloc, self.post_constructs.as_slice(), declared)?,
            pre_destroys: left_codes(alloc, self.pre_destroys.as_slice(), declared)?,
            methods: self.methods,
        })
    }

    /// What a class that declares members of these names has of its direct superclass, if it has one.
    pub(crate) fn inherited(
        alloc: Global,
        above: Option<&ClassLife>,
        kept: &[Step],
        class: Name,
        declared: &[Name],
    ) -> Result<ClassLife, AllocError>
        ensures { IfOk result (λ life. life
            ≡ spec.inherited (option_copied above.entry) kept.now class declared.now) }
    {
        match above {
            Some(above) => above.below(alloc, kept, class, declared),
            None => ClassLife::topmost(alloc, class),
        }
    }
}
