//! The places of a text.

ghost use Rattle.std.specs.Prelude.{◌≡◌};
ghost use Rattle.author_text.specs.Places.{HasPlace, IsRefusalOf};

use crate::place::Place;
use crate::refusal::Refusal;

/// The place, where the text has it, and else the place of the end of the text.
pub fn place_in(text: &[u8], place: Place) -> Place
    ensures { HasPlace text.now result.line result.column }
{
    let mut line: usize = 1;
    let mut column: usize = 1;
    for byte in text {
        if line == place.line && column == place.column {
            break;
        }
        if *byte == b'\n' {
            line += 1;
            column = 1;
        } else {
            column += 1;
        }
    }
    Place { line, column }
}

/// What is refused of a text, at a place that the text has.
pub fn refused_of(text: &[u8], refusal: Refusal) -> Refusal
    ensures place { IsRefusalOf text.now result }
    ensures memory { refusal ≡ Refusal.NoMemory → result ≡ Refusal.NoMemory }
{
    match refusal {
        Refusal::Mistake { line, column, what } => {
            let place = place_in(text, Place { line, column });
            Refusal::Mistake {
                line: place.line,
                column: place.column,
                what,
            }
        }
        Refusal::NoMemory => Refusal::NoMemory,
    }
}
