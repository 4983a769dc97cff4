// The formats by name, and the numbers that specs/Formats has for them.
ghost use Rattle.std.specs.Prelude.{◌≡◌};
ghost use Rattle.dictionary.specs.Formats.{form_named, form_number};

#[derive(Clone, Copy, PartialEq, Eq)]
pub enum Format {
    Set = 0,
    Array = 1,
    Null = 2,
    Integer = 3,
    Enum = 4,
    String = 5,
    Real = 6,
    Boolean = 7,
}

impl Format {
    // Above 7 no number has a format.
    pub fn numbered(n: usize) -> Option<Format>
        ensures { result ≡ form_named n }
    {
        match n {
            0 => Some(Format::Set),
            1 => Some(Format::Array),
            2 => Some(Format::Null),
            3 => Some(Format::Integer),
            4 => Some(Format::Enum),
            5 => Some(Format::String),
            6 => Some(Format::Real),
            7 => Some(Format::Boolean),
            _ => None,
        }
    }

    pub fn number(self) -> usize
        ensures { result ≡ form_number self }
    {
        self as usize
    }
}
