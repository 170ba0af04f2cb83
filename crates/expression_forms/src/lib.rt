//! What the definitions of types and of values say of each form of expression. Each call does nothing: the laws are its
//! contract.
#![tactic(auto)]

ghost use Rattle.expression_forms.specs.Meanings.{MeaningForms};
ghost use Rattle.expression_forms.specs.Typings.{TypingForms};

/// The type of each form, by those of its parts.
pub fn typing_form_law()
    ensures { TypingForms }
{}

/// The value of each form, by those of its parts.
pub fn meaning_form_law()
    ensures { MeaningForms }
{}
