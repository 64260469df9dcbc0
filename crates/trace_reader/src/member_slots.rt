//! What is kept of an object's members: a slot for each name that an operation may ask for.
ghost use Rattle.std.specs.Prelude.{◌≡◌, Some, codes};
ghost use Rattle.serde_json.specs.Data.{Data, Members, no_members, put, string};
ghost use Rattle.trace_types.specs.Names as Names;
ghost use Rattle.trace_reader.specs.Looks.{told, look_of, listed, number_text, number_of_look, text_of};
ghost use Rattle.trace_reader.specs.Looks.{op_told, elements_told, kept_at, Tells};

use crate::fault::LineCause;
use crate::look::Seen;
use crate::names::{NUMBERS, NumberName, place};
use trace_types::kinds::Field;
use trace_types::names::OpName;

/// What is kept of a member that has to be a number.
#[derive(Clone, Copy, Debug)]
pub enum KeptNumber {
    Missing,
    /// null
    Nothing,
    /// a natural number of 64 bits
    Natural(u64),
    /// another value
    Other,
}

/// What is kept of `op`.
#[derive(Clone, Copy, Debug)]
pub enum KeptText<'a> {
    Missing,
    Text(&'a str),
    /// the text that names the operation
    Named(OpName),
    /// another value
    Other,
}

/// What is kept of `fields`.
#[derive(Debug, Drop)]
pub enum KeptElements {
    Missing,
    /// an array: what each element is as a field of `new_cyclic`
    Listed(Vec<Result<Field, LineCause>>),
    /// another value
    Other,
}

/// What is kept of an object's members. Of two of one name the later one counts, and of other names nothing is kept.
#[derive(Debug, Drop)]
pub struct MemberSlots<'a> {
    numbers: [KeptNumber; NUMBERS],
    pub op: KeptText<'a>,
    pub fields: KeptElements,
}

impl<'a> MemberSlots<'a> {
    /// No member is there.
    pub fn none() -> MemberSlots<'a>
        ensures { Tells result no_members }
    {
        MemberSlots {
            numbers: [KeptNumber::Missing; NUMBERS],
            op: KeptText::Missing,
            fields: KeptElements::Missing,
        }
    }

    /// The member of that name.
    pub fn number(&self, name: NumberName) -> KeptNumber
        ensures { result ≡ kept_at self.now name }
    {
        self.numbers[place(name)]
    }

    /// Keeps a member that has to be a number.
    pub fn keep_number(&mut self, name: NumberName, seen: Seen<'_>)
        ensures { (ms : Members) (d : Data) → Tells self.old ms → told seen.entry ≡ look_of d
            → Tells self.new (put (number_text name) d ms) }
    {
        self.numbers[place(name)] = number_of(seen);
    }

    /// Keeps `op`.
    pub fn keep_op(&mut self, seen: Seen<'a>)
        ensures { (ms : Members) (d : Data) → Tells self.old ms → told seen.entry ≡ look_of d
            → Tells self.new (put (codes "op") d ms) }
    {
        self.op = op_of(seen);
    }

    /// Keeps `op`, a text that names an operation.
    pub fn keep_op_name(&mut self, name: OpName)
        ensures { (ms : Members) → Tells self.old ms
            → Tells self.new (put (codes "op") (string (Names.name_text name)) ms) }
    {
        self.op = KeptText::Named(name);
    }

    /// Keeps `fields`.
    pub fn keep_fields(&mut self, elements: KeptElements)
        ensures { (ms : Members) (d : Data) → Tells self.old ms
            → elements_told elements ≡ Some (listed d)
            → Tells self.new (put (codes "fields") d ms) }
    {
        self.fields = elements;
    }
}

fn number_of(seen: Seen<'_>) -> KeptNumber
    ensures { result ≡ number_of_look (told seen.entry) }
{
    match seen {
        Seen::Nothing => KeptNumber::Nothing,
        Seen::Natural(n) => KeptNumber::Natural(n),
        Seen::Text(_) | Seen::Other => KeptNumber::Other,
    }
}

fn op_of<'a>(seen: Seen<'a>) -> KeptText<'a>
    ensures { op_told result ≡ Some (text_of (told seen.entry)) }
{
    match seen {
        Seen::Text(text) => KeptText::Text(text),
        Seen::Nothing | Seen::Natural(_) | Seen::Other => KeptText::Other,
    }
}
