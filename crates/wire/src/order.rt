// Numbers as bytes, in either byte order.
ghost use Rattle.std.specs.Prelude.{◌≡◌, ℕ};
ghost use Rattle.wire.specs.declared.order.ByteOrder.TheVariants.{Big, Little};
ghost use Rattle.wire.specs.Numbers.{digits, number_of};

use std::error::Error;
use std::fmt;
use std::str::FromStr;

/// The order in which the bytes of a number stand.
#[derive(Clone, Copy, Debug, PartialEq, Eq, Hash)]
pub enum ByteOrder {
    /// The most significant byte comes first.
    Big,
    /// The least significant byte comes first.
    Little,
}

/// A text that names no byte order.
#[derive(Clone, Copy, Debug, PartialEq, Eq, Hash)]
pub struct UnknownByteOrder;

impl fmt::Display for UnknownByteOrder {
    ghost use Rattle.std.specs.Prelude.{Some, codes};

    ghost output = { λ _. Some (codes "a byte order is big or little") };

    fn fmt<W: fmt::Write>(&self, f: &mut fmt::Formatter<W>) -> fmt::Result {
        f.write_str("a byte order is big or little")
    }
}

impl Error for UnknownByteOrder {}

/// The byte order that `big` or `little` names.
impl FromStr for ByteOrder {
    type Err = UnknownByteOrder;

    ghost use Rattle.wire.specs.Words.{NamesOrder};

    ghost from_str_gives = { NamesOrder };

    fn from_str(word: &str) -> Result<ByteOrder, UnknownByteOrder> {
        match word {
            "big" => Ok(ByteOrder::Big),
            "little" => Ok(ByteOrder::Little),
            _ => Err(UnknownByteOrder),
        }
    }
}

/// A number that stands in `N` bytes.
pub trait Word<const N: usize>: Sized {
    // the number itself
    ghost value: { Self → ℕ };

    /// The number of which these are the bytes, the most significant first.
    fn from_big(bytes: [u8; N]) -> Self
        ensures { value result ≡ number_of Big bytes.entry };

    /// The number of which these are the bytes, the least significant first.
    fn from_little(bytes: [u8; N]) -> Self
        ensures { value result ≡ number_of Little bytes.entry };

    /// The bytes, the most significant first.
    fn to_big(self) -> [u8; N]
        ensures { result ≡ digits Big N (value self) };

    /// The bytes, the least significant first.
    fn to_little(self) -> [u8; N]
        ensures { result ≡ digits Little N (value self) };
}

// An impl for each width: the integers' own calls of these names belong to no trait.
impl Word<2> for u16 {
    ghost value = { λ short. short };

    fn from_big(bytes: [u8; 2]) -> u16
        ensures { result ≡ number_of Big bytes }
    {
        u16::from_be_bytes(bytes)
    }

    fn from_little(bytes: [u8; 2]) -> u16
        ensures { result ≡ number_of Little bytes }
    {
        u16::from_le_bytes(bytes)
    }

    fn to_big(self) -> [u8; 2]
        ensures { result ≡ digits Big 2 self }
    {
        u16::to_be_bytes(self)
    }

    fn to_little(self) -> [u8; 2]
        ensures { result ≡ digits Little 2 self }
    {
        u16::to_le_bytes(self)
    }
}

impl Word<4> for u32 {
    ghost value = { λ long. long };

    fn from_big(bytes: [u8; 4]) -> u32
        ensures { result ≡ number_of Big bytes }
    {
        u32::from_be_bytes(bytes)
    }

    fn from_little(bytes: [u8; 4]) -> u32
        ensures { result ≡ number_of Little bytes }
    {
        u32::from_le_bytes(bytes)
    }

    fn to_big(self) -> [u8; 4]
        ensures { result ≡ digits Big 4 self }
    {
        u32::to_be_bytes(self)
    }

    fn to_little(self) -> [u8; 4]
        ensures { result ≡ digits Little 4 self }
    {
        u32::to_le_bytes(self)
    }
}

impl ByteOrder {
    /// The number that the bytes stand for.
    pub fn decode<W: Word<N>, const N: usize>(self, bytes: [u8; N]) -> W
        ensures { W.value result ≡ number_of self bytes.entry }
    {
        match self {
            ByteOrder::Big => W::from_big(bytes),
            ByteOrder::Little => W::from_little(bytes),
        }
    }

    /// The bytes of a number.
    pub fn encode<W: Word<N>, const N: usize>(self, number: W) -> [u8; N]
        ensures { result ≡ digits self N (W.value number) }
    {
        match self {
            ByteOrder::Big => number.to_big(),
            ByteOrder::Little => number.to_little(),
        }
    }
}
