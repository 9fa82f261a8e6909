//! What classes have for the lives of their instances.
ghost use Rattle.std.specs.Prelude.{◌≡◌, ◌↔◌, ℕ, None, Some, length, slice_get, IfOk, IsTrue};
ghost use Rattle.std.specs.Option.{option_copied};
ghost use Rattle.cdi_class_lives.specs.Kept.{AreKept, IsKept};
ghost use Rattle.cdi_class_lives.specs.Lives.{inherited};

use crate::codes::add_codes;
use crate::life::ClassLife;
use crate::own_life::OwnLife;
use crate::places::keep_all;
use cdi_base::{Name, Seq};
use cdi_deployment::Field;
use cdi_machine::{Code, Method, Step};
use cdi_method_maps::MethodMaps;
use std::alloc::{AllocError, Global};

/// What classes have for the lives of their instances, each by what its direct superclass has. A class is told by its place among them;
/// the first one that was added has the place 0.
pub struct ClassLives {
    /// Each step once, with the class that declares it.
    steps: Seq<Step>,
    /// Each field once.
    fields: Seq<Field>,
    /// The maps of the methods of classes.
    methods: MethodMaps,
    lives: Seq<ClassLife>,
    ghost kept: { AreKept steps fields methods lives },
}

/// In one call, so that the proof of each function that owns them has one step here, and not one for each of them.
impl Drop for ClassLives {
    fn drop(self) {
        let ClassLives {
            steps: _steps,
            fields: _fields,
            methods: _methods,
            lives: _lives,
        } = self;
    }
}

impl ClassLives {
    ghost use Rattle.cdi_class_lives.specs.ClassLives as spec;

    /// What no class has.
    pub fn new(alloc: Global) -> Result<ClassLives, AllocError>
        ensures { IfOk result (λ lives. (class : ℕ) → spec.life_of lives class ≡ None) }
    {
        Ok(ClassLives {
            steps: Seq::empty(alloc),
            fields: Seq::empty(alloc),
            methods: MethodMaps::new(alloc)?,
            lives: Seq::empty(alloc),
        })
    }

    /// What is kept of a class, if there is one and something is.
    fn life(&self, class: Option<usize>) -> Option<&ClassLife>
        ensures { option_copied result ≡ spec.life_from self.now class }
    {
        self.lives.get(class?)
    }

    /// Whether a class is kept with this line, the topmost class first.
    pub fn has_line(&self, class: usize, line: &[Name]) -> bool
        ensures { IsTrue result ↔ (spec.line_of self.now class ≡ Some line.now) }
    {
        match self.lives.get(class) {
            Some(life) => life.line.as_slice() == line,
            None => false,
        }
    }

    /// What a class that declares members of these names has of its direct superclass.
    fn inherited(
        &self,
        alloc: Global,
        above: Option<usize>,
        class: Name,
        declared: &[Name],
    ) -> Result<ClassLife, AllocError>
        ensures life { IfOk result (λ life. life
            ≡ inherited (spec.life_from self.now above) self.now.steps class declared.now) }
        ensures kept { IfOk result (IsKept self.now.steps self.now.fields self.now.methods) }
    {
        let kept = self.steps.as_slice();
        let life = ClassLife::inherited(alloc, self.life(above), kept, class, declared)?;
        Ok(life)
    }

    /// Adds a class, and gives its place. It has what its direct superclass has that it doesn't override, and behind it what it declares
    /// itself. If it doesn't inherit the methods, it has those alone that are given.
    pub fn add(
        &mut self,
        alloc: Global,
        above: Option<usize>,
        inherits_methods: bool,
        own: OwnLife,
    ) -> Result<usize, AllocError>
        ensures { IfOk result (spec.IsAdded self.old above inherits_methods own self.new) }
    {
        let place = self.lives.len();
        let OwnLife {
            class,
            declared,
            fields,
            injections,
            post_constructs,
            pre_destroys,
            methods,
        } = own;
        let declared = declared.as_slice();
        let mut life = self.inherited(alloc, above, class, declared)?;
        keep_all(&mut self.fields, fields, &mut life.fields)?;
        keep_all(&mut self.steps, injections, &mut life.injections)?;
        add_codes(&mut life.post_constructs, post_constructs.as_slice())?;
        add_codes(&mut life.pre_destroys, pre_destroys.as_slice())?;
        let origin = if inherits_methods { life.methods } else { None };
        life.methods = Some(self.methods.add(alloc, origin, declared, methods)?);
        self.lives.push(life)?;
        Ok(place)
    }

    /// How many fields an instance of a class has.
    pub fn field_count(&self, class: usize) -> usize
        ensures { result ≡ length (spec.fields_of self.now class) }
    {
        match self.lives.get(class) {
            Some(life) => life.fields.len(),
            None => 0,
        }
    }

    /// The one at an index of these fields.
    pub fn field(&self, class: usize, index: usize) -> Option<&Field>
        ensures { option_copied result ≡ slice_get (spec.fields_of self.now class) index }
    {
        let place = *self.lives.get(class)?.fields.get(index)?;
        self.fields.get(place as usize)
    }

    /// How many steps inject fields of an instance of a class, or run its initializers.
    pub fn injection_count(&self, class: usize) -> usize
        ensures { result ≡ length (spec.injections_of self.now class) }
    {
        match self.lives.get(class) {
            Some(life) => life.injections.len(),
            None => 0,
        }
    }

    /// The one at an index of these steps.
    pub fn injection(&self, class: usize, index: usize) -> Option<&Step>
        ensures { option_copied result ≡ slice_get (spec.injections_of self.now class) index }
    {
        let place = *self.lives.get(class)?.injections.get(index)?;
        self.steps.get(place as usize)
    }

    /// The post-construct callbacks of a class.
    pub fn post_constructs(&self, class: usize) -> &[Code]
        ensures { result.now ≡ spec.post_constructs_of self.now class }
    {
        match self.lives.get(class) {
            Some(life) => life.post_constructs.as_slice(),
            None => &[],
        }
    }

    /// The pre-destroy callbacks of a class.
    pub fn pre_destroys(&self, class: usize) -> &[Code]
        ensures { result.now ≡ spec.pre_destroys_of self.now class }
    {
        match self.lives.get(class) {
            Some(life) => life.pre_destroys.as_slice(),
            None => &[],
        }
    }

    /// The business method of a name that a class has.
    pub fn method(&self, class: usize, name: Name) -> Option<&Method>
        ensures { option_copied result ≡ spec.method_of self.now class name }
    {
        let life = self.lives.get(class)?;
        self.methods.get(life.methods, name)
    }
}
