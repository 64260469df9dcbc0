//! What a desk replies to a request.
ghost use Rattle.std.specs.Prelude.{◌≡◌, ◌++◌, ◌∷◌, [], Some, IfOk, OnOk, string_bytes};
ghost use Rattle.edit_desk.specs.ReplyText.{cause_text, edit_index, reply_text};

use run_engine::Refusal;
use std::alloc::AllocError;

/// What a desk replies to a request. The causes are tried in the order `HistoryFull`, `Stale`, `Refused`, `Accepted`.
#[derive(Clone, Copy, Debug, PartialEq, Eq)]
pub enum Reply {
    /// The edits were made: this is the version that stands now.
    Accepted(u32),
    /// The request was made for another version than this one, which stands.
    Stale(u32),
    /// An edit can't be made, or the batch has none or too many.
    Refused(Refusal),
    /// The history has as many entries as it may have; the request is not stored.
    HistoryFull,
}

/// Adds the line of a reply, with its newline.
pub fn push_reply(text: &mut String, reply: Reply) -> Result<(), AllocError>
    ensures { OnOk result
        (string_bytes text.new ≡ string_bytes text.old ++ reply_text reply ++ 10 ∷ []) }
{
    match reply {
        Reply::Accepted(version) => write!(text, "accepted {version}\n"),
        Reply::Stale(version) => write!(text, "stale {version}\n"),
        Reply::Refused(why) => push_refusal(text, why),
        Reply::HistoryFull => text.push_str("full\n"),
    }
}

fn push_refusal(text: &mut String, why: Refusal) -> Result<(), AllocError>
    ensures { OnOk result
        (string_bytes text.new
        ≡ string_bytes text.old ++ reply_text (Reply.Refused why) ++ 10 ∷ []) }
{
    let cause = cause_str(why);
    let edit = edit_of(why);
    write!(text, "refused {cause} {edit}\n")
}

fn cause_str(why: Refusal) -> &'static str
    ensures { result.now ≡ cause_text why }
{
    match why {
        Refusal::NoSuchOp(_) => "NoSuchOp",
        Refusal::IdTaken(_) => "IdTaken",
        Refusal::TooMany(_) => "TooMany",
        Refusal::EmptyBatch => "EmptyBatch",
        Refusal::TooManyEdits => "TooManyEdits",
    }
}

// The edit that is refused, from 0; 0 where it is the batch.
fn edit_of(why: Refusal) -> u64
    ensures { result ≡ edit_index why }
{
    match why {
        Refusal::NoSuchOp(edit) | Refusal::IdTaken(edit) | Refusal::TooMany(edit) => edit,
        Refusal::EmptyBatch | Refusal::TooManyEdits => 0,
    }
}
