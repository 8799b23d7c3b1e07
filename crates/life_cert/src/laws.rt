//! Laws of the definitions. Each function does nothing: what its contract says holds of the definitions alone.

ghost use Rattle.life_cert.specs.Examples.{WorkedTexts};
ghost use Rattle.life_cert.specs.Lengths.{StateTextsAreShort, CertTextsAreShort};
ghost use Rattle.life_cert.specs.Reading.{TextsTellStates};
ghost use Rattle.life_cert.specs.Laws.{StatesOnlyGrow, RoundsEnd, StatesAreFormed, StatesAreClosed};

/// Texts worked out by hand.
pub fn worked_texts()
    ensures { WorkedTexts }
{}

/// In each round a place keeps its state, or gets one that is above it; and the rounds that are made are enough: in the last one no
/// state grows.
pub fn rounds_grow_and_end()
    ensures grow { StatesOnlyGrow }
    ensures end { RoundsEnd }
{}

/// Each state of each round is in form and of the module's variables, and has `in` where it is one of `main`, and nowhere else.
pub fn states_are_formed()
    ensures { StatesAreFormed }
{}

/// In the certificate of the rounds, what each place hands on is below the state where it arrives: only instructions that may have a
/// fault hand on nothing.
pub fn states_are_closed()
    ensures { StatesAreClosed }
{}

/// No two states in form have one text: a text tells its state.
pub fn texts_tell_states()
    ensures { TextsTellStates }
{}

/// The text of a state in form has 1,187 bytes at most, and that of a certificate of such states 1,224,030, of version 2
/// 24 more: no certificate that is printed is longer than a text may be.
pub fn texts_are_short()
    ensures states { StateTextsAreShort }
    ensures certificates { CertTextsAreShort }
{}
