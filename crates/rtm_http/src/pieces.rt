ghost use Rattle.std.specs.Prelude.{◌≡◌, ◌≢◌, ◌<◌, ◌≤◌, ℕ, List, length};
ghost use Rattle.httparse.specs.Grammar.{HasNoRequest};
ghost use Rattle.rtm_http.specs.declared.head.HeadRead.{HeadRead};
ghost use Rattle.rtm_http.specs.declared.head.HeadRead.TheVariants.{More};
ghost use Rattle.rtm_http.specs.Head.{longest_head, IsRead};
ghost use Rattle.rtm_http.specs.Pieces.{HasSeen};

use crate::head::HeadRead;
use crate::line_end::has_head_end;
use crate::read::{LONGEST_HEAD, read_head};

/// How far the bytes of one head were looked at that comes in pieces, so that they are not read from the front for each piece.
#[derive(Clone, Copy, Debug, PartialEq, Eq)]
pub struct HeadPieces {
    /// How many bytes were looked at.
    seen: usize,
    /// From this length on the bytes are read again, whatever they are.
    due: usize,
}

impl HeadPieces {
    /// Nothing was looked at yet.
    pub fn new() -> Self
        ensures { (bytes : List ℕ) → HasSeen result.seen bytes }
    {
        HeadPieces { seen: 0, due: 0 }
    }

    /// What the bytes are that were read so far, which are those of the call before and some more. They are read by `read_head`
    /// where an end of a head has come since then, where they have become twice as many since they were read last, and where they
    /// are 16,384. Elsewhere the answer is More, also for bytes that `read_head` calls bad: who gets no more bytes asks it once more.
    pub fn read(&mut self, bytes: &[u8]) -> HeadRead
        ensures answer { result ≢ More → IsRead bytes.now result }
        ensures few { result ≡ More → length bytes.now < longest_head }

        // No whole head is waited past, where none was before.
        ensures none { HasSeen self.old.seen bytes.now → result ≡ More → HasNoRequest bytes.now }
        ensures seen { HasSeen self.old.seen bytes.now → result ≡ More → HasSeen self.new.seen bytes.now }
    {
        let ends = has_head_end(bytes, self.seen);
        self.seen = bytes.len();
        if !ends && bytes.len() < self.due && bytes.len() < LONGEST_HEAD {
            return HeadRead::More;
        }
        self.due = bytes.len().saturating_mul(2);
        read_head(bytes)
    }
}
