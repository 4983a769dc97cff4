// A set or an array: its format in a payload, and its brackets in a text.
ghost use Rattle.std.specs.Prelude.{◌≡◌};
ghost use Rattle.dictionary.specs.Formats.{form_number};
ghost use Rattle.payload.specs.Tree.{shape_format};
ghost use Rattle.payload.specs.Text.{opens, closes};
ghost use Rattle.payload.specs.Reading.{shape_of};

use crate::Shape;
use dictionary::formats::Format;

impl Shape {
    // The shape of a format that holds tuples, by the format's number: `shape_of` is promised of every number.
    pub fn numbered(f: usize) -> Shape
        ensures { result ≡ shape_of f }
    {
        if f == Format::Set as usize {
            Shape::Set
        } else {
            Shape::Array
        }
    }

    pub fn format(self) -> Format
        ensures { form_number result ≡ shape_format self }
    {
        match self {
            Shape::Set => Format::Set,
            Shape::Array => Format::Array,
        }
    }

    pub fn opens(self) -> u8
        ensures { result ≡ opens self }
    {
        match self {
            Shape::Set => b'{',
            Shape::Array => b'[',
        }
    }

    pub fn closes(self) -> u8
        ensures { result ≡ closes self }
    {
        match self {
            Shape::Set => b'}',
            Shape::Array => b']',
        }
    }
}
