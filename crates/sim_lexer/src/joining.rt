//! The law of joining words into a text.
ghost use Rattle.sim_lexer.specs.Joined.{JoinedReadsBack, TokensAreFew, TokensAreSpelled, TokensStayWithin};

/// Words, each followed by a blank, are a text of these words, where each is spelled as its kind asks and they keep
/// the limits of a text. And the tokens of a text keep these limits, and are spelled so.
///
/// It does nothing: the law is its contract.
pub fn joining_law()
    ensures joined { JoinedReadsBack }
    ensures within { TokensStayWithin }
    ensures few { TokensAreFew }
    ensures spelled { TokensAreSpelled }
{}
