//! From words to a line.

ghost use Rattle.std.specs.Prelude.{◌≡◌, ◌≢◌, ◌<◌, ◌↔◌, map, length, false, IsTrue};
ghost use Rattle.std.specs.Bool.{OnTrue};
ghost use Rattle.std.specs.Io.KnownBytes.{Appends};
ghost use Rattle.intcalc_core.specs.declared.line.TheConstants.{CAPACITY};
ghost use Rattle.intcalc_core.specs.Line.{IsReply, IsLine, PrintsLine};

use crate::calls::{Call, Kind};
use crate::line::{push_answer, push_refusal};
use crate::outcome::evaluate;
use crate::sink::{Sink, put_all};
use crate::words::read_words;
use num_integer::text::Buffer;

/// Returns the line for a request, without the line feed, and the status.
fn reply(request: Option<(Kind, Call)>) -> (Buffer, u8)
    ensures text { IsReply request result.0 result.1 }
    ensures room { length result.0 < CAPACITY }
    ensures status { result.1 < 4 }
{
    let mut line = Buffer::new();
    let Some((kind, call)) = request else {
        line.push(b"usage");
        return (line, 2);
    };
    match evaluate(kind, call) {
        Ok(answer) => {
            push_answer(&mut line, answer);
            (line, 0)
        }
        Err(refusal) => {
            push_refusal(&mut line, refusal);
            (line, 1)
        }
    }
}

/// Returns the line that the words ask for, and its status.
pub fn line_for(words: &[&str]) -> (Buffer, u8)
    ensures line { IsLine (map (λ w. w.now) words.now) result.0 result.1 }
    ensures status { result.1 < 4 }
{
    let (mut line, status) = reply(read_words(words));
    line.push(b"\n");
    (line, status)
}

/// Puts a line and finishes. Returns whether both succeeded.
pub fn put_line<S: Sink>(out: &mut S, line: &[u8]) -> bool
    ensures failed { (result ≡ false) ↔ IsTrue (S.has_failed out.new) }
    ensures added { OnTrue result (Appends (S.contents out.old) (S.contents out.new) line.now) }
    ensures finished { OnTrue result (IsTrue (S.is_finished out.new)) }
{
    put_all(out, line).is_some() && out.finish()
}

/// Puts the line that the words ask for, and returns the status: 0 for an answer, 1 for a refusal,
/// 2 for words that ask for no call, and 4 if the sink has failed. For the words `i64`, `gcd`, `4`,
/// `6` it puts `2` and a line feed, and returns 0.
pub fn run<S: Sink>(words: &[&str], out: &mut S) -> u8
    ensures failed { (result ≡ 4) ↔ IsTrue (S.has_failed out.new) }
    ensures line { result ≢ 4
        → PrintsLine (map (λ w. w.now) words.now) (S.contents out.old) (S.contents out.new) result }
    ensures finished { result ≢ 4 → IsTrue (S.is_finished out.new) }
{
    let (line, status) = line_for(words);
    if put_line(out, line.as_bytes()) {
        status
    } else {
        4
    }
}
