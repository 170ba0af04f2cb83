//! Faults of statements.

ghost use Rattle.std.specs.Prelude.{◌≡◌};
ghost use Rattle.type_rules.specs.Rules.{kind_of};
ghost use Rattle.typed_tree.specs.Steps.{at_line};

use type_rules::TypeKind;
use typed_tree::CheckFault;

/// What a rule answers at a node of this line.
pub fn at_line<T>(line: u32, judged: Result<T, TypeKind>) -> Result<T, CheckFault>
    ensures { result ≡ at_line line judged }
{
    match judged {
        Ok(value) => Ok(value),
        Err(kind) => Err(CheckFault::IllTyped { line, kind }),
    }
}

/// A statement that doesn't stand in functions.
pub fn misplaced(line: u32) -> CheckFault
    ensures { result ≡ CheckFault.IllTyped line TypeKind.Shape }
{
    CheckFault::IllTyped {
        line,
        kind: TypeKind::Shape,
    }
}

/// The kind of a fault, if there is one.
pub fn kind_of<T: Copy>(judged: Result<T, TypeKind>) -> Option<TypeKind>
    ensures { result ≡ kind_of judged }
{
    match judged {
        Ok(_) => None,
        Err(kind) => Some(kind),
    }
}
