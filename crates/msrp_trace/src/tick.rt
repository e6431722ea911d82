//! The text of a tick, made once for the records of all cores.
ghost use Rattle.std.specs.Prelude.{◌≡◌};
ghost use Rattle.msrp_plan.specs.Common.{decimal, true};

use crate::text::Text;

/// More than the 10 digits of a number of 32 bits.
pub(crate) const NUMBER: usize = 16;

/// A tick, and its text.
#[derive(Drop)]
pub(crate) struct Tick {
    tick: u32,
    text: Text<NUMBER>,
    ghost fits: { text ≡ decimal tick },
}

impl Tick {
    /// The first tick.
    pub(crate) fn new() -> Tick {
        let mut text = Text::new();
        text.number(0);
        Tick { tick: 0, text }
    }

    // Counts up to this tick if it is the next one and doesn't end in 0: only the last digit
    // changes. Otherwise nothing does.
    #[inline(always)]
    fn count(&mut self, tick: u32) -> bool
        ensures { result ≡ true → self.new.tick ≡ tick }
    {
        let next = u64::from(self.tick) + 1;
        let digit = self.text.last();
        if digit < b'9' && next == u64::from(tick) {
            self.text.set_last(digit + 1);
            self.tick = tick;
            true
        } else {
            false
        }
    }

    /// Makes the text of a tick, unless it is here already.
    #[inline(always)]
    pub(crate) fn show(&mut self, tick: u32)
        ensures { self.new.tick ≡ tick }
    {
        if self.tick != tick {
            self.turn(tick);
        }
    }

    // Makes it, kept apart from the code of most rows.
    #[inline(never)]
    fn turn(&mut self, tick: u32)
        ensures { self.new.tick ≡ tick }
    {
        if !self.count(tick) {
            self.make(tick);
        }
    }

    fn make(&mut self, tick: u32)
        ensures { self.new.tick ≡ tick }
    {
        self.text.clear();
        self.text.number(tick);
        self.tick = tick;
    }

    /// The text.
    pub(crate) fn text(&self) -> &Text<NUMBER>
        ensures { result.now ≡ decimal self.now.tick }
    {
        &self.text
    }

    /// The bytes of the text.
    pub(crate) fn bytes(&self) -> &[u8]
        ensures { result.now ≡ decimal self.now.tick }
    {
        self.text.as_bytes()
    }
}
