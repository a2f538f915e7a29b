//! The call that a request asks for.
ghost use Rattle.std.specs.Prelude.{◌≡◌, replicate, is_ok, IfOk};
ghost use Rattle.protocols.specs.Requests.{order_for};
ghost use Rattle.protocols.specs.Views.{Fresh, Spared, request_of};

use super::bytes::decode;
use super::request::Request;
use engine::act::Act;
use engine::call::Call;
use std::alloc::{AllocError, Global};

// What each byte of a buffer is before an act writes to it.
pub const UNWRITTEN: u8 = 0xee;

fn unwritten(heap: Global, size: usize) -> Result<Vec<u8>, AllocError>
    ensures { IfOk result (λ v. v.items ≡ replicate size 238) }
{
    vec![in heap; UNWRITTEN; size]
}

// The act with its buffer, yet to be carried out.
pub fn request_call(heap: Global, request: Request<'_>) -> Result<Call, AllocError>
    ensures call { IfOk result (λ call. Fresh (order_for (request_of request.entry)) call) }
    ensures spared { Spared (request_of request.entry) (is_ok result) }
{
    let (act, buffer) = match request {
        Request::Next => (Act::Next, Vec::new(heap)),
        Request::Restart => (Act::Restart, Vec::new(heap)),
        Request::Tally => (Act::Tally, Vec::new(heap)),
        Request::Read(size) => (Act::Read, unwritten(heap, size)?),
        Request::Save(job, size) => (Act::Save(job), unwritten(heap, size)?),
        Request::Resume(job, digits) => (Act::Resume(job), decode(heap, digits)?),
    };
    Ok(Call::new(act, buffer))
}
