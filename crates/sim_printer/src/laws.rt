//! The law of printing.
ghost use Rattle.sim_printer.specs.ReadsBack.{ReadBack};

use sim_lexer::joining_law;

/// The printed words of a program that some text derives are a text that derives the same program, on one line.
///
/// It only calls the law of joined words: the law is its contract.
pub fn printing_law()
    ensures reads_back { ReadBack }
{
    joining_law();
}
