//! Text gathered into pages, so that the writer underneath is called once for 32 KiB.
ghost use Rattle.std.specs.Prelude.{◌≡◌, ◌≤◌, ◌+◌, ◌++◌};
ghost use Rattle.msrp_plan.specs.Common.{[], length, Wrote};
ghost use Rattle.msrp_trace.specs.Gathering.{Gathers};

use crate::text::Text;
use msrp_plan::bytes::Sink;
use std::io::Write;
use std::marker::Model;

// The number of bytes gathered before a write.
const PAGE: usize = 32_768;

/// Text that was gathered and isn't written yet.
#[derive(Drop)]
pub(crate) struct Page {
    text: Text<PAGE>,
}

impl Model for Page {
    ghost use Rattle.std.specs.Prelude.{ℕ, List};

    ghost Value = { List ℕ };

    ghost view = { λ p. p.text };
}

impl Page {
    /// An empty page.
    pub(crate) fn new() -> Page
        ensures { result ≡ [] }
    {
        Page { text: Text::new() }
    }

    /// Writes what was gathered.
    #[inline(never)]
    pub(crate) fn write<W: Write>(&mut self, out: &mut Sink<W>)
        ensures wrote { Wrote W.contents out.old out.new self.old }
        ensures empty { self.new ≡ [] }
    {
        out.add(self.text.as_bytes());
        self.text.clear();
    }

    // Writes what was gathered if the page has no room for `more` bytes.
    #[inline(always)]
    fn make_room<W: Write>(&mut self, out: &mut Sink<W>, more: usize)
        requires { more ≤ PAGE }
        ensures text { Gathers W.contents self.old out.old self.new out.new [] }
        ensures room { length self.new + more ≤ PAGE }
    {
        if self.text.len() > PAGE - more {
            self.write(out);
        }
    }

    /// Adds a text. If there is no room for the longest one of its type, writes what was gathered.
    #[inline(always)]
    pub(crate) fn add<W: Write, const N: usize>(&mut self, out: &mut Sink<W>, text: &Text<N>)
        requires { N ≤ PAGE }
        ensures { Gathers W.contents self.old out.old self.new out.new text.now }
    {
        self.make_room(out, N);
        self.text.add_text(text);
    }

    /// Adds two texts, one after the other, with one check for both.
    #[inline(always)]
    pub(crate) fn add_both<W: Write, const N: usize, const M: usize>(
        &mut self,
        out: &mut Sink<W>,
        first: &Text<N>,
        second: &Text<M>,
    )
        requires { N + M ≤ PAGE }
        ensures { Gathers W.contents self.old out.old self.new out.new (first.now ++ second.now) }
    {
        self.make_room(out, N + M);
        self.text.add_text(first);
        self.text.add_text(second);
    }
}
