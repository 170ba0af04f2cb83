//! The law of what a typed program declares.

ghost use Rattle.block_types.specs.WellDeclared.{WellDeclaredLaw};

use typing_laws::program_typing_law;

/// What is typed is well declared. The call does nothing: the law is its contract.
pub fn well_declared_law()
    ensures { WellDeclaredLaw }
{
    program_typing_law();
}
