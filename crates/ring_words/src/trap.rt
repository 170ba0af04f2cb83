use thiserror::Error;

/// Why a computation over words ends without a value.
#[derive(Clone, Copy, Debug, PartialEq, Eq, Error)]
pub enum TrapKind {
    #[error("division by zero")]
    DivisionByZero,
    #[error("root of a negative number")]
    NegativeRoot,
    #[error("assertion failed")]
    Assertion,
}
