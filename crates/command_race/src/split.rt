//! The requests of an input, session by session.
ghost use Rattle.std.specs.Prelude.{◌≡◌, ℕ, [], IfOk, IfSome, slice_index_or, vec_len};
ghost use Rattle.command_race.specs.Race.{requests_of, others_of};

use edit_desk::Request;
use live_sessions::PLACES;
use std::alloc::{AllocError, Global};
use trace_reader::RequestLine;
use trace_types::sequence::Sequence;

// The requests of one session, and the lines of the others.
fn take_session(
    alloc: Global,
    lines: Vec<RequestLine>,
    session: u32,
) -> Result<(Sequence<Request>, Vec<RequestLine>), AllocError>
    ensures own { IfOk result (λ r. r.0 ≡ requests_of session lines.items) }
    ensures others { IfOk result (λ r. r.1.items ≡ others_of session lines.items) }
{
    let mut own = Sequence::empty(alloc);
    let mut others = Vec::new(alloc);
    for line in lines {
        if line.session == session {
            let RequestLine {
                base,
                session: _,
                batch,
            } = line;
            own.push(Request { base, batch })?;
        } else {
            others.push(line)?;
        }
    }
    Ok((own, others))
}

/// The requests of each session that has a place, in order, where there are none of another session and there is memory.
pub fn by_session(alloc: Global, lines: Vec<RequestLine>) -> Option<Vec<Sequence<Request>>>
    ensures places { IfSome result (λ v. vec_len v ≡ PLACES) }
    ensures each { IfSome result
        (λ v. (s : ℕ) → slice_index_or v.items s [] ≡ requests_of s lines.items) }
{
    let mut sessions = Vec::new(alloc);
    let mut rest = lines;
    for session in 0..PLACES {
        let Ok((own, others)) = take_session(alloc, rest, session) else {
            return None;
        };
        rest = others;
        if sessions.push(own).is_err() {
            return None;
        }
    }
    if rest.len() > 0 {
        return None;
    }
    Some(sessions)
}
