//! What a statement makes known, and where it ends.

ghost use Rattle.std.specs.Prelude.{◌≡◌, OnOk};
ghost use Rattle.typed_tree.specs.Walking as spec;
ghost use Rattle.typed_tree.specs.Steps.{Leads};

use crate::environment::Walk;
use crate::fault::CheckFault;
use crate::names::Meaning;
use type_rules::TypeKind;
use vocabulary::NoMemory;
use vocabulary::limits::MOST_STATEMENTS;

impl<'a> Walk<'a> {
    /// A statement ends: with the kind of its fault, or as one more, within the limit.
    #[tactic(auto, unfolding(crate::specs::Walking::counted))]
    pub fn end_statement(&mut self, line: u32, fault: Option<TypeKind>) -> Result<(), CheckFault>
        ensures { Leads (spec.counted line fault self.old) result self.new }
    {
        if let Some(kind) = fault {
            return Err(CheckFault::IllTyped { line, kind });
        }
        if self.statements >= MOST_STATEMENTS {
            return Err(CheckFault::IllTyped {
                line,
                kind: TypeKind::TooLarge,
            });
        }
        self.statements += 1;
        Ok(())
    }

    /// From here on a name stands for this.
    pub fn name(&mut self, name: &'a str, meaning: Meaning) -> Result<(), NoMemory>
        ensures { OnOk result (self.new ≡ spec.naming self.old name.now meaning) }
    {
        self.environment.names.set(name, meaning)
    }

    /// From here on a name stands for this, which is the next local.
    pub fn name_local(&mut self, name: &'a str, meaning: Meaning) -> Result<(), NoMemory>
        ensures { OnOk result (self.new ≡ spec.naming_local self.old name.now meaning) }
    {
        let Some(locals) = self.locals.checked_add(1) else {
            return Err(NoMemory);
        };
        self.environment.names.set(name, meaning)?;
        self.locals = locals;
        Ok(())
    }

    /// So many names and locals stay visible, those that were declared first.
    pub fn cut_back(&mut self, names: usize, locals: u32)
        ensures { self.new ≡ spec.cut_back names locals self.old }
    {
        self.environment.names.truncate(names);
        self.locals = locals;
    }
}
