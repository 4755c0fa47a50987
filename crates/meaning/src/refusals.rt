// Why a call is refused, and the number of each reason, as specs/Refusals has them; 14 is not used.
ghost use Rattle.std.specs.Prelude.{◌≡◌};
ghost use Rattle.meaning.specs.Refused.{number_of};

#[derive(Clone, Copy, Debug, PartialEq, Eq)]
pub enum Refusal {
    TypeRefused = 1,
    OverLimit = 2,
    OutOfBounds = 3,
    PaddingNotZero = 4,
    NulInText = 5,
    NotUtf8 = 6,
    MaybeEndNotZero = 7,
    NoSeparator = 8,
    VariantTypeRefused = 9,
    StructuresTooDeep = 10,
    ArraysTooDeep = 11,
    ContainersTooDeep = 12,
    RoomTooSmall = 13,
    NotWritten = 15,
    NoSuchReading = 16,
    NoValue = 17,
    NotHexadecimal = 18,
}

impl Refusal {
    pub fn number(self) -> u8
        ensures { result ≡ number_of self }
    {
        self as u8
    }
}
