//! A whole protocol, and its lines one by one.
ghost use Rattle.std.specs.Prelude.{◌≡◌, ℕ, None, IfSome};
ghost use Rattle.std.specs.Option.{option_map};
ghost use Rattle.protocols.specs.Laws.{Accepting, Begins, FirstRead, FirstUnreadable, Readable, Refusing};
ghost use Rattle.protocols.specs.Reading.{ordered, requests_in, unreadable_of};
ghost use Rattle.protocols.specs.Views.{OnNoMemory, asked_before, orders_of};

use super::calls::request_call;
use super::error::ProtocolError;
use super::line::read_request;
use super::request::Request;
use super::words::part;
use engine::call::Call;
use std::alloc::Global;

// The calls of all lines, or the number of the first line that is unreadable: it is no request, or
// it is not finished. Each line before it gave a call.
pub fn read_protocol(heap: Global, bytes: &[u8]) -> Result<Vec<Call>, ProtocolError>
    ensures value { IfSome (orders_of result) (λ os. os ≡ ordered (requests_in bytes.now)) }
    ensures accepting { IfSome (orders_of result) (λ os. Accepting bytes.now os) }
    ensures refusing { IfSome (orders_of result) (λ os. Refusing bytes.now os) }
    ensures memory { OnNoMemory result (FirstRead (ordered (requests_in bytes.now))) }
{
    let mut calls = Vec::new(heap);
    let mut rest = bytes;
    while let Some((line, behind)) = part(b'\n', rest) {
        let number = calls.len() as u64 + 1;
        let request = read_request(line).ok_or(ProtocolError::Unreadable(number))?;
        let call = request_call(heap, request)?;
        calls.push(call)?;
        rest = behind;
    }
    if !rest.is_empty() {
        return Err(ProtocolError::Unreadable(calls.len() as u64 + 1));
    }
    Ok(calls)
}

// What the first line asks for, and what stands behind it; none where the line is no request, or is not finished.
pub fn next_request(bytes: &[u8]) -> Option<(Request<'_>, &[u8])>
    ensures { Begins bytes.now (option_map asked_before result) }
{
    let (line, behind) = part(b'\n', bytes)?;
    Some((read_request(line)?, behind))
}

// The number of the first line that is unreadable, from 1; none where each line is a request. It asks for no memory.
pub fn first_unreadable(bytes: &[u8]) -> Option<u64>
    ensures value { result ≡ unreadable_of (requests_in bytes.now) }
    ensures readable { result ≡ None → Readable bytes.now }
    ensures unreadable { IfSome result (FirstUnreadable bytes.now) }
{
    let mut number = 1;
    let mut rest = bytes;
    while let Some((_, behind)) = next_request(rest) {
        number += 1;
        rest = behind;
    }
    if rest.is_empty() { None } else { Some(number) }
}
