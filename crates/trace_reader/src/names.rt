//! The names of the members that an operation may ask for.
ghost use Rattle.std.specs.Prelude.{◌≡◌, ◌<◌};
ghost use Rattle.trace_reader.specs.Looks.{IsNamed};
ghost use Rattle.trace_reader.specs.Looks as Looks;

/// The name of a member that is a number.
#[derive(Clone, Copy, Debug, PartialEq, Eq)]
pub enum NumberName {
    Id,
    Thread,
    To,
    From,
    Handle,
    Index,
    Cell,
    First,
    Second,
    Expected,
    Desired,
}

/// The name of a member that an operation may ask for.
#[derive(Clone, Copy, Debug, PartialEq, Eq)]
pub enum MemberName {
    Number(NumberName),
    Op,
    Fields,
}

/// How many members may be numbers.
pub const NUMBERS: usize = 11;

/// The place of a member that is a number, among them.
pub fn place(name: NumberName) -> usize
    ensures value { result ≡ Looks.place name }
    ensures within { result < NUMBERS }
{
    match name {
        NumberName::Id => 0,
        NumberName::Thread => 1,
        NumberName::To => 2,
        NumberName::From => 3,
        NumberName::Handle => 4,
        NumberName::Index => 5,
        NumberName::Cell => 6,
        NumberName::First => 7,
        NumberName::Second => 8,
        NumberName::Expected => 9,
        NumberName::Desired => 10,
    }
}

/// The name that a text is, where an operation may ask for it.
pub fn member_name(text: &str) -> Option<MemberName>
    ensures { IsNamed text.now result }
{
    written_name(text.as_bytes())
}

/// The name that is written so, where an operation may ask for it.
#[tactic(auto, using(std::proofs::lemmas::Slice::Eq::text_from_reads))]
pub fn written_name(text: &[u8]) -> Option<MemberName>
    ensures { IsNamed text.now result }
{
    match text {
        b"t" => Some(MemberName::Number(NumberName::Thread)),
        b"id" => Some(MemberName::Number(NumberName::Id)),
        b"op" => Some(MemberName::Op),
        b"to" => Some(MemberName::Number(NumberName::To)),
        b"from" => Some(MemberName::Number(NumberName::From)),
        b"h" => Some(MemberName::Number(NumberName::Handle)),
        b"i" => Some(MemberName::Number(NumberName::Index)),
        b"c" => Some(MemberName::Number(NumberName::Cell)),
        b"a" => Some(MemberName::Number(NumberName::First)),
        b"b" => Some(MemberName::Number(NumberName::Second)),
        b"fields" => Some(MemberName::Fields),
        b"expected" => Some(MemberName::Number(NumberName::Expected)),
        b"desired" => Some(MemberName::Number(NumberName::Desired)),
        _ => None,
    }
}
