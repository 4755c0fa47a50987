// The type text, looked at: here what its letters are. `shapes` has what a table says of the type at a place, `items` what an array
// repeats. `signature_table` judges a text, and fills its table.
#![tactic(auto)]

pub mod items;
pub mod shapes;

ghost use Rattle.std.specs.Prelude.{◌≡◌};
ghost use Rattle.signature.specs.Places.{letter_at, letter_of, ClosesAt};
ghost use Rattle.signature.specs.Steps.{key_fixed};

// What a letter of a type text is. A number has its code and its width, a text its code. That there is none, at the end or for another character, is
// among them, since callers tell it apart in the same `match`: an Option around each would be opened at every look and say no more.
#[derive(Clone, Copy, Debug, PartialEq, Eq)]
pub enum Letter {
    End,
    Bad,
    Boolean,
    Number { code: u8, width: usize },
    Text { code: u8 },
    Variant,
    Maybe,
    Array,
    OpenStructure,
    CloseStructure,
    OpenEntry,
    CloseEntry,
}

// Of a character.
#[tactic(auto, unfolding(crate::specs::Places::letter_by, meaning::specs::TypeText::basic_among))]
pub fn letter_of(code: u8) -> Letter
    ensures { result ≡ letter_of code }
{
    match code {
        b'b' => Letter::Boolean,
        b'y' => Letter::Number { code, width: 1 },
        b'n' | b'q' => Letter::Number { code, width: 2 },
        b'i' | b'u' => Letter::Number { code, width: 4 },
        b'x' | b't' | b'd' => Letter::Number { code, width: 8 },
        b's' | b'o' | b'g' => Letter::Text { code },
        b'v' => Letter::Variant,
        b'm' => Letter::Maybe,
        b'a' => Letter::Array,
        b'(' => Letter::OpenStructure,
        b')' => Letter::CloseStructure,
        b'{' => Letter::OpenEntry,
        b'}' => Letter::CloseEntry,
        _ => Letter::Bad,
    }
}

// The letter at a place.
#[tactic(auto, using(crate::proofs::Letters::letter_end, crate::proofs::Letters::letter_some))]
pub fn letter_at(text: &[u8], at: usize) -> Letter
    ensures { result ≡ letter_at text.now at }
{
    match text.get(at) {
        Some(code) => letter_of(*code),
        None => Letter::End,
    }
}

// Whether a structure's type ends at a place.
#[tactic(auto, using(crate::proofs::Letters::closes_past, crate::proofs::Letters::closes_by))]
pub fn closes_at(text: &[u8], at: usize) -> bool
    ensures { ClosesAt text.now at result }
{
    at < text.len() && text[at] == b')'
}

pub(crate) fn key_fixed(key: Letter) -> bool
    ensures { result ≡ key_fixed key }
{
    matches!(key, Letter::Boolean | Letter::Number { .. })
}
