//! The requests of a script.

ghost use Rattle.std.specs.Prelude.{◌≡◌, ℕ, ◌⊎◌, ◌<◌, ◌≤◌, List, [], length, map, IsTrue, IfOk, IfErr, IfSome};
ghost use Rattle.exam_edge.specs.Faults.{Rose};
ghost use Rattle.exam_edge.specs.Lent.{IsLent};
ghost use Rattle.exam_text.specs.First.{Gives, or_fault};
ghost use Rattle.exam_text.specs.Words.{lines_of, words_of};
ghost use Rattle.history_model.specs.declared.request.Request.{Request};
ghost use Rattle.replay_cli.specs.Scripts.{IsScript};
ghost use Rattle.replay_cli.specs.Reading.{number_after, booking_in, answer_in, close_in, exposure_in, request_in, list_in, without_in, request_on, requests_of, most_bytes, IsScriptFault, IsOfText};
ghost use Rattle.replay_cli.specs.declared.script_fault.ScriptFault.TheVariants as fault;

use crate::line::request_line;
use crate::script_fault::ScriptFault;
use bank_tables::ItemSet;
use exam_edge::{Memory, Source};
use exam_text::{lines_of, number, word_at, words_of};
use history_model::Request;
use spec_reader::set_of;
use std::alloc::Global;
use text_source::{TextFault, text_of};

/// The greatest number of a session.
const MOST_SESSION: u64 = 4_294_967_295;

#[tactic(auto, unfolding(crate::specs::Reading::number_after))]
fn number_after(name: &[u8], most: u64, words: &[&[u8]]) -> Option<u64>
    ensures value { result ≡ number_after name.now most (map (λ w. w.now) words.now) }
    ensures most { IfSome result (λ n. n ≤ most) }
{
    if words.len() != 2 || word_at(words, 0) != name {
        return None;
    }
    number(word_at(words, 1), most)
}

/// The booking that the last words of a line name: no words name none.
#[tactic(auto, unfolding(crate::specs::Reading::booking_in))]
fn booking_in(words: &[&[u8]]) -> Option<Option<u64>>
    ensures { result ≡ booking_in (map (λ w. w.now) words.now) }
{
    if words.is_empty() {
        return Some(None);
    }
    match number_after(b"for", u64::MAX, words) {
        None => None,
        Some(booking) => Some(Some(booking)),
    }
}

#[tactic(auto, unfolding(crate::specs::Reading::answer_in))]
fn answer_in(words: &[&[u8]]) -> Option<Request>
    ensures { result ≡ answer_in (map (λ w. w.now) words.now) }
{
    if words.len() < 4 || word_at(words, 0) != b"answer".as_slice() {
        return None;
    }
    let session = number(word_at(words, 1), MOST_SESSION)?;
    let step = number(word_at(words, 2), 65_535)?;
    let response = number(word_at(words, 3), 255)?;
    let booking = booking_in(words.split_at(4).1)?;
    Some(Request::Answer {
        session: session as u32,
        step: step as u16,
        response: response as u8,
        booking,
    })
}

#[tactic(auto, unfolding(crate::specs::Reading::close_in))]
fn close_in(words: &[&[u8]]) -> Option<Request>
    ensures { result ≡ close_in (map (λ w. w.now) words.now) }
{
    if words.len() < 2 || word_at(words, 0) != b"close".as_slice() {
        return None;
    }
    let session = number(word_at(words, 1), MOST_SESSION)?;
    let booking = booking_in(words.split_at(2).1)?;
    Some(Request::Close {
        session: session as u32,
        booking,
    })
}

#[tactic(auto, unfolding(crate::specs::Reading::exposure_in))]
fn exposure_in(words: &[&[u8]]) -> Option<Request>
    ensures { result ≡ exposure_in (map (λ w. w.now) words.now) }
{
    if words.len() != 1 || word_at(words, 0) != b"exposure".as_slice() {
        return None;
    }
    Some(Request::Exposure)
}

/// The request without a list of the words of a line.
#[tactic(auto, unfolding(crate::specs::Reading::request_in))]
fn request_in(words: &[&[u8]]) -> Option<Request>
    ensures { result ≡ request_in (map (λ w. w.now) words.now) }
{
    if let Some(booking) = number_after(b"begin", u64::MAX, words) {
        return Some(Request::Begin(booking));
    }
    if let Some(answer) = answer_in(words) {
        return Some(answer);
    }
    if let Some(close) = close_in(words) {
        return Some(close);
    }
    if let Some(session) = number_after(b"look", MOST_SESSION, words) {
        return Some(Request::Look(session as u32));
    }
    exposure_in(words)
}

/// The set of items that the words write, however it is spelled.
fn list_in(words: &[&[u8]]) -> Option<ItemSet>
    ensures { result ≡ list_in (map (λ w. w.now) words.now) }
{
    let set = set_of(words)?;
    let _ = set.count();
    Some(set)
}

/// The beginning with a list of the words of a line, however the list is spelled.
#[tactic(auto, unfolding(crate::specs::Reading::without_in))]
fn without_in(words: &[&[u8]]) -> Option<Request>
    ensures { result ≡ without_in (map (λ w. w.now) words.now) }
{
    if words.len() < 4
        || word_at(words, 0) != b"begin".as_slice()
        || word_at(words, 2) != b"without".as_slice()
    {
        return None;
    }
    let booking = number(word_at(words, 1), u64::MAX)?;
    let items = list_in(words.split_at(3).1)?;
    Some(Request::BeginWithout { booking, items })
}

/// The request of a line, if it is one. A list has one spelling, which is the printed one.
#[tactic(auto, unfolding(crate::specs::Reading::request_from))]
fn request_on(alloc: Global, line: &[u8]) -> Result<Option<Request>, Memory>
    ensures { IfOk result (λ request. request ≡ request_on line.now) }
{
    let words = words_of(alloc, line)?;
    let Some(request) = without_in(&words) else {
        return Ok(request_in(&words));
    };
    let own = request_line(alloc, &request)?;
    if own.as_slice() == line {
        Ok(Some(request))
    } else {
        Ok(None)
    }
}

/// The request of a line, whose number counts from 1.
fn request_of(alloc: Global, number: u64, line: &[u8]) -> Result<Request, ScriptFault>
    ensures { Gives fault.Memory (λ r. r) result
        (or_fault (request_on line.now) (fault.Line number)) }
{
    request_on(alloc, line)?.ok_or(ScriptFault::Line(number))
}

/// The requests of lines.
#[tactic(auto, unfolding(crate::specs::Reading::requests_of))]
fn requests_of(alloc: Global, lines: &[&[u8]]) -> Result<Vec<Request>, ScriptFault>
    ensures { Gives fault.Memory (λ v. v.items) result
        (requests_of (map (λ w. w.now) lines.now)) }
{
    let mut requests = Vec::new(alloc);
    for i in 0..lines.len() {
        requests.push(request_of(alloc, i as u64 + 1, word_at(lines, i))?)?;
    }
    Ok(requests)
}

/// The requests of a text.
fn requests_in(alloc: Global, text: &[u8]) -> Result<Vec<Request>, ScriptFault>
    ensures { Gives fault.Memory (λ v. v.items) result (requests_of (lines_of text.now)) }
{
    let lines = lines_of(alloc, text)?;
    requests_of(alloc, &lines)
}

/// The requests of the script that a source gives, in order. A script has a line for each request:
/// `begin B`, `begin B without SET`, `answer S K R`, `answer S K R for B`, `close S`,
/// `close S for B`, `look S` or `exposure`, with B a booking, SET the items of a list, S a session,
/// K a step and R a response. SET is spelled in its maximal runs, as `0-3 7`, with a space between
/// each two. The last line may lack its line feed. The text has at most 16,777,216 bytes and is
/// read to its end. Of several faulty lines the first is named. `Source` is given only if the
/// source's count of faults rose.
pub fn read_script<S: Source>(alloc: Global, source: &mut S) -> Result<Vec<Request>, ScriptFault>
    // Promise: A text is read as the requests of which it is the script: the line of each request,
    // in order, where the last line may lack its line feed
    // - by `found` (`IsScript`)
    ensures found { IfOk result (λ v. IsTrue (S.tells source.old)
        → IsScript (S.left source.old) v.items) }
    // Promise: `TooLong` comes exactly by the number of bytes
    // - by `within`, `fault`
    ensures within { IfOk result (λ _. IsTrue (S.tells source.old)
        → length (S.left source.old) ≤ most_bytes) }
    // Promise: After `Ok` the text was read to its end. `Source` comes only if the source's count
    // of faults rose in this call
    // - by `whole`, `failed`
    ensures whole { IfOk result (λ _. IsTrue (S.tells source.old) → S.left source.new ≡ []) }
    // Promise: `Line` names the first line that is not the line of a request, counted from 1
    // - by `fault` (`IsScriptFault`, `IsFirstFaultyLine`)
    ensures fault { IfErr result (λ e. IsTrue (S.tells source.old)
        → IsScriptFault (S.left source.old) e) }
    // A script that is not too long is read.
    // Promise: A script of at most 16,777,216 bytes is read; only a source that failed, or out of
    // memory, prevents it
    ensures only { IfErr result (λ e. IsTrue (S.tells source.old)
        → length (S.left source.old) ≤ most_bytes
        → (requests : List Request) → IsScript (S.left source.old) requests
        → (e ≡ fault.Memory) ⊎ (e ≡ fault.Source)) }
    ensures failed { IfErr result (λ e. e ≡ fault.Source
        → Rose (S.faults source.old) (S.faults source.new)) }

    // Requests, and what refuses a text, are answers only where there is something to read.
    // Promise: Requests, or a fault of the text, come only from a source that can be read at all;
    // the names that have files stay as they were
    // - by `there`, `there_refused`, `has`, `beside`
    ensures there { IfOk result (λ _. IsTrue (S.tells source.old)
        → IsTrue (S.there source.old)) }
    ensures there_refused { IfErr result (λ e. IsOfText e → IsTrue (S.tells source.old)
        → IsTrue (S.there source.old)) }
    ensures has { IsTrue (S.tells source.old)
        → (name : List ℕ) → S.has source.new name ≡ S.has source.old name }
    ensures beside { IsTrue (S.tells source.old)
        → (name : List ℕ) → S.beside source.new name ≡ S.beside source.old name }
    ensures frame { IsLent S.tells S.identity S.faults source.old source.new }
{
    match text_of(alloc, source, 16_777_216) {
        Ok(text) => requests_in(alloc, &text),
        Err(TextFault::Source) => Err(ScriptFault::Source),
        Err(TextFault::TooLong) => Err(ScriptFault::TooLong),
        Err(TextFault::Memory) => Err(ScriptFault::Memory),
    }
}
