// What a source answers, and why it refuses to be asked.
ghost use Rattle.std.specs.Prelude.{◌≡◌};
ghost use Rattle.sources.specs.Present.{deeper};
ghost use Rattle.sources.specs.Refusals.{ask_number};

// A fault of a source: its cause, and how many layers it came through.
#[derive(Clone, Copy, Debug, PartialEq, Eq)]
pub struct Fault {
    pub cause: u8,
    pub depth: u8,
}

impl Fault {
    // The fault as a layer passes it on: one deeper, at most 255.
    pub fn deeper(self) -> Fault
        ensures { result ≡ record { cause = self.cause; depth = deeper self.depth } }
    {
        Fault {
            cause: self.cause,
            depth: self.depth.saturating_add(1),
        }
    }
}

// The rows of a batch stand at the front of the page that the source was asked with.
#[derive(Clone, Copy, Debug, PartialEq, Eq)]
pub enum SourceAnswer {
    Batch(usize),
    Wait,
    Fault(Fault),
    End,
}

// A refusal is no item: a fault may have the cause 13 too.
#[derive(Clone, Copy, Debug, PartialEq, Eq)]
pub enum SourceRefusal {
    PageTooShort = 13,
}

impl SourceRefusal {
    // The number by which the refusal goes.
    pub fn number(self) -> u8
        ensures { result ≡ ask_number self }
    {
        self as u8
    }
}
