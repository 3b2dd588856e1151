//! The sink of the line.

ghost use Rattle.std.specs.Prelude.{◌≡◌, ◌<◌, ◌≤◌, ◌↔◌, ℕ, List, Option, Bool, length, take, false};
ghost use Rattle.std.specs.Prelude.{IsTrue, IsNone, IfSome, MatchOption};
ghost use Rattle.std.specs.Bool.{OnTrue};
ghost use Rattle.std.specs.Io.KnownBytes.{Appends, Keeps};

use std::io::Write;

/// A place for bytes, which may fail. A failed sink stays failed.
pub trait Sink {
    // The bytes so far, if the sink shows them.
    ghost contents: { Self → Option (List ℕ) };

    // Whether the sink has failed.
    ghost has_failed: { Self → Bool };

    // Whether the sink has finished, with nothing put since.
    ghost is_finished: { Self → Bool };

    /// Adds the first `n` of the bytes and returns `Some(n)`, or returns `None` if the sink has failed.
    /// After `finish` it may be called again; the sink is then unfinished.
    fn put(&mut self, bytes: &[u8]) -> Option<usize>
        ensures bound { IfSome result (λ n. n ≤ length bytes.now) }
        ensures progress { 0 < length bytes.now → IfSome result (λ n. 0 < n) }
        ensures added { IfSome result
            (λ n. Appends (contents self.old) (contents self.new) (take n bytes.now)) }
        ensures failed { IsNone result ↔ IsTrue (has_failed self.new) }
        ensures for_good { IsTrue (has_failed self.old) → IsTrue (has_failed self.new) }
        ensures unfinished { is_finished self.new ≡ false };

    /// Flushes the sink, and returns `false` if the sink has failed.
    fn finish(&mut self) -> bool
        ensures kept { OnTrue result (Keeps (contents self.old) (contents self.new)) }
        ensures failed { (result ≡ false) ↔ IsTrue (has_failed self.new) }
        ensures for_good { IsTrue (has_failed self.old) → IsTrue (has_failed self.new) }
        ensures finished { is_finished self.new ≡ result };
}

/// A sink over a writer. It fails at the first error of the writer, and at the first write of one or
/// more bytes that takes no byte.
#[derive(Drop)]
pub struct Console<W> {
    out: W,
    failed: bool,
    finished: bool,
}

impl<W: Write> Console<W> {
    ghost use Rattle.intcalc_core.specs.Console.{writer_of, has_failed, is_finished};

    /// Returns a console over the writer, which has not failed. `Console::new(rt.stdout())` is the
    /// console of the program.
    pub fn new(out: W) -> Console<W>
        ensures writer { writer_of result ≡ out }
        ensures fresh { has_failed result ≡ false }
        ensures unfinished { is_finished result ≡ false }
    {
        Console {
            out,
            failed: false,
            finished: false,
        }
    }

    /// Returns the writer. `Console::new(out).into_inner()` is `out`.
    pub fn into_inner(self) -> W
        ensures { result ≡ writer_of self }
    {
        let Console { out, .. } = self;
        out
    }
}

impl<W: Write> Sink for Console<W> {
    ghost use Rattle.intcalc_core.specs.Console.{writer_of, has_failed, is_finished};

    ghost contents = { λ console. W.contents console.out };

    ghost has_failed = { λ console. console.failed };

    ghost is_finished = { λ console. console.finished };

    // If it returns `None`, a writer that shows its bytes took no byte.
    fn put(&mut self, bytes: &[u8]) -> Option<usize>
        ensures bound { IfSome result (λ n. n ≤ length bytes.now) }
        ensures progress { 0 < length bytes.now → IfSome result (λ n. 0 < n) }
        ensures added { IfSome result (λ n. Appends (W.contents (writer_of self.old))
            (W.contents (writer_of self.new)) (take n bytes.now)) }
        ensures failed { IsNone result ↔ IsTrue (has_failed self.new) }
        ensures for_good { IsTrue (has_failed self.old) → IsTrue (has_failed self.new) }
        ensures kept { IsNone result
            → Keeps (W.contents (writer_of self.old)) (W.contents (writer_of self.new)) }
        ensures unfinished { is_finished self.new ≡ false }
    {
        self.finished = false;
        if self.failed {
            return None;
        }
        match self.out.write(bytes) {
            Ok(n) if n > 0 || bytes.is_empty() => Some(n),
            _ => {
                self.failed = true;
                None
            }
        }
    }

    fn finish(&mut self) -> bool {
        self.finished = !self.failed && self.out.flush().is_ok();
        self.failed = !self.finished;
        self.finished
    }
}

/// Puts all of the bytes, or returns `None` if the sink has failed.
pub fn put_all<S: Sink>(out: &mut S, bytes: &[u8]) -> Option<()>
    ensures added { MatchOption result (IsTrue (S.has_failed out.new))
        (λ _. Appends (S.contents out.old) (S.contents out.new) bytes.now) }
    ensures unfinished { 0 < length bytes.now → S.is_finished out.new ≡ false }
{
    let mut rest = bytes;
    while !rest.is_empty() {
        let n = out.put(rest)?;
        rest = &rest[n..];
    }
    Some(())
}
